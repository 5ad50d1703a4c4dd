//! The whole search: some hands over two shared numbers, with turns in any order.

ghost use Rattle.std.specs.Prelude.{◌≡◌, ℕ, ◌+◌, ◌*◌, ◌^◌, ◌<◌, ◌≤◌, ◌⊎◌, Bool, List, length, true, false, if◌then◌else◌, IfOk, IsTrue, ◌≢◌, replicate};
ghost use Rattle.search_core.specs.Hand.{IsTry, number_in, fresh};
ghost use Rattle.search_core.specs.Order.{is_over};
ghost use Rattle.search_core.specs.Machine.{Machine, opening, hand_at, turned, turn_in, verdict, tried, AllOver, IsMachine, IsMeets, is_in, Covers, Fits, work, has_ended, IfTurnTries};
ghost use Rattle.search_core.specs.Numbers.{first_of};

use crate::hand::{Answer, Ask, Hand, Phase};
use std::alloc::Global;
use std::marker::Model;

/// There is no memory.
#[derive(Clone, Copy, Debug, PartialEq, Eq)]
pub struct Memory;

/// What a hand's turn came to.
#[derive(Clone, Copy, Debug, PartialEq, Eq)]
pub enum Turn {
    /// A claim, a look or a post.
    Did,
    /// Nothing yet: the hand wants to know whether this number meets, which `tried` tells it.
    Try(u64),
    /// Nothing: the hand has ended.
    Over,
}

/// The hands of a search and what they share. Contracts see it as a `Machine`.
#[derive(Debug, Drop)]
pub struct Core {
    count: u64,
    block: u64,
    next: u64,
    least: u64,
    hands: Vec<Hand>,
}

impl Model for Core {
    ghost use Rattle.search_core.specs.Machine.{Machine, IsMachine};

    ghost Value = { Machine };

    ghost view = { λ core. record {
      count = core.count;
      block = core.block;
      next = core.next;
      least = core.least;
      hands = core.hands.items;
    } };

    ghost invariant = { λ core. IsMachine (record {
      count = core.count;
      block = core.block;
      next = core.next;
      least = core.least;
      hands = core.hands.items;
    }) };
}

/// As many new hands.
fn new_hands(alloc: Global, count: u64, block: u64, hands: u32) -> Result<Vec<Hand>, Memory>
    requires count { count ≤ 2 ^ 40 }
    requires positive { 0 < block }
    requires block { block ≤ 2 ^ 20 }
    ensures { IfOk result (λ v. v.items ≡ replicate hands (fresh count block)) }
{
    let mut made = Vec::new(alloc);
    for _ in 0..hands {
        made.push(Hand::new(count, block)).map_err(|_| Memory)?;
    }
    Ok(made)
}

/// What a hand is told of its try.
fn verdict(met: bool) -> Answer
    ensures { result ≡ verdict met }
{
    if met { Answer::Met } else { Answer::Missed }
}

impl Core {
    /// A search among the numbers below `count`, in blocks of `block` numbers, by `hands` hands.
    pub fn new(alloc: Global, count: u64, block: u64, hands: u32) -> Result<Core, Memory>
        requires count { count ≤ 2 ^ 40 }
        requires positive { 0 < block }
        requires block { block ≤ 2 ^ 20 }
        requires some_hand { 0 < hands }
        requires few_hands { hands ≤ 64 }
        ensures opening { IfOk result (λ core. core ≡ opening count block hands) }
        ensures sound { IfOk result IsMachine }
        ensures fits { IfOk result (λ core. (meets : List ℕ) → IsMeets count meets → Fits meets core) }
        ensures covers { IfOk result (λ core. (left : ℕ → Bool) → Covers left core) }
        ensures work { IfOk result (λ core. work core ≡ 4 * count + hands) }
    {
        let hands = new_hands(alloc, count, block, hands)?;
        Ok(Core {
            count,
            block,
            next: 0,
            least: count,
            hands,
        })
    }

    /// A turn of a hand: a claim, a look or a post. Where the hand is to try a number, or has ended,
    /// nothing changes.
    pub fn turn(&mut self, hand: u32) -> Turn
        requires { hand < length self.old.hands }
        ensures turned { self.new ≡ turned self.old hand }
        ensures answer { result ≡ turn_in (hand_at self.old hand).phase }
        ensures tries { IfTurnTries result (λ k. (hand_at self.old hand).phase ≡ Phase.Try k) }
        ensures within { IfTurnTries result (λ k. k < self.old.count) }
        ensures stays { result ≢ Turn.Did → self.new ≡ self.old }
        ensures over { result ≡ Turn.Over → IsTrue (has_ended (hand_at self.old hand)) }
        ensures sound { IsMachine self.new }

        // What holds of every list of the numbers that meet, and of every test, holds still.
        ensures fits { (meets : List ℕ) → Fits meets self.old → Fits meets self.new }
        ensures covers { (left : ℕ → Bool) → Covers left self.old → Covers left self.new }
        ensures work { result ≡ Turn.Did → work self.new < work self.old }
    {
        let at = hand as usize;
        match self.hands[at].next() {
            Ask::Claim => {
                let block = self.next;
                self.next += 1;
                self.hands[at].told(Answer::Block(block));
                Turn::Did
            }
            Ask::Look => {
                self.hands[at].told(Answer::Least(self.least));
                Turn::Did
            }
            Ask::Try(number) => Turn::Try(number),
            Ask::Post(number) => {
                let before = self.least;
                self.least = before.min(number);
                self.hands[at].told(Answer::Least(before));
                Turn::Did
            }
            Ask::Over => Turn::Over,
        }
    }

    /// Tells a hand whether the number that it is to try meets.
    pub fn tried(&mut self, hand: u32, met: bool)
        requires there { hand < length self.old.hands }
        requires tries { IsTry (hand_at self.old hand).phase }
        ensures tried { self.new ≡ tried self.old hand met }
        ensures sound { IsMachine self.new }

        // What holds of a list that the answer is true of, and of a test that marks no number that misses, holds still.
        ensures fits { (meets : List ℕ) → met ≡ is_in meets (number_in (hand_at self.old hand).phase) → Fits meets self.old → Fits meets self.new }
        ensures covers { (left : ℕ → Bool) → (met ≡ false → left (number_in (hand_at self.old hand).phase) ≡ false) → Covers left self.old → Covers left self.new }
        ensures work { work self.new < work self.old }
    {
        self.hands[hand as usize].told(verdict(met));
    }

    /// How many hands there are.
    pub fn hands(&self) -> u32
        ensures hands { result ≡ length self.now.hands }
        ensures sound { IsMachine self.now }
    {
        self.hands.len() as u32
    }

    /// Whether a hand has ended.
    pub fn is_over(&self, hand: u32) -> bool
        requires { hand < length self.now.hands }
        ensures { result ≡ is_over self.now hand }
    {
        self.hands[hand as usize].next() == Ask::Over
    }

    /// The first hand from `from` on that has not ended, or the number of hands.
    pub fn running_from(&self, from: u32) -> u32
        requires { from ≤ length self.now.hands }
        ensures within { (from ≤ result) × (result ≤ length self.now.hands) }
        ensures passed { (k : ℕ) → from ≤ k → k < result → is_over self.now k ≡ true }
        ensures found { result < length self.now.hands → is_over self.now result ≡ false }
    {
        for hand in from..self.hands() {
            if !self.is_over(hand) {
                return hand;
            }
        }
        self.hands()
    }

    /// The least number that was posted, or the count.
    pub fn least(&self) -> u64
        ensures least { result ≡ self.now.least }
        ensures known { (meets : List ℕ) → Fits meets self.now → (result ≡ self.now.count) ⊎ IsTrue (is_in meets result) }

        // Where all hands have ended it is the first number that meets, and every number below it was tried.
        ensures first { (meets : List ℕ) → Fits meets self.now → AllOver self.now → result ≡ first_of self.now.count meets }
        ensures tried { (left : ℕ → Bool) → Covers left self.now → AllOver self.now → (n : ℕ) → IsTrue (left n) → n < result → ⊥ }
    {
        self.least
    }
}
