//! One hand: what it asks for next, and what it does with each answer.

ghost use Rattle.std.specs.Prelude.{◌≡◌, ℕ, ◌+◌, ◌*◌, ◌^◌, ◌<◌, ◌≤◌, Bool, true, false, min, nat_lt, nat_eq, if◌then◌else◌, Option, None, IfSome, IsSomeAnd};
ghost use Rattle.search_core.specs.Hand.{Standing, fresh, told, ask_of, Answers, IsHand, InOpen, LeavesNone, NoneLeft, HoldsIfMissed, HoldsIfMet, PostsMet, IfTry, IfPost, Matches, end_at};
ghost use Rattle.search_core.specs.Machine.{LeavesLess};
ghost use Rattle.search_core.specs.Trail.{ComesTo, HasTried, ClaimsAbove, tried_after};

use std::marker::Model;

/// What a hand asks for next.
#[derive(Clone, Copy, Debug, PartialEq, Eq)]
pub enum Ask {
    /// The number of a block that nobody else has.
    Claim,
    /// The least number that was posted, or the count.
    Look,
    /// Whether this number meets.
    Try(u64),
    /// That this number, which meets, be posted.
    Post(u64),
    /// Nothing more.
    Over,
}

/// What a hand is told.
#[derive(Clone, Copy, Debug, PartialEq, Eq)]
pub enum Answer {
    /// To a claim: the number of the block.
    Block(u64),
    /// To a look, or to a post: the least number that was posted before, or the count.
    Least(u64),
    /// To a try: the number meets.
    Met,
    /// To a try: the number does not meet.
    Missed,
}

/// Where a hand stands in its work.
#[derive(Clone, Copy, Debug, PartialEq, Eq)]
pub enum Phase {
    /// It has no open block, and claims one.
    Claim,
    /// It looks before it tries this number.
    Look(u64),
    /// It tries this number.
    Try(u64),
    /// It posts this number, which meets.
    Post(u64),
    /// It has ended.
    Over,
}

/// A hand of the search. Contracts see it as a `Standing`.
#[derive(Clone, Copy, Debug)]
pub struct Hand {
    count: u64,
    block: u64,
    phase: Phase,
    seen: u64,
    last: Option<u64>,
}

impl Model for Hand {
    ghost use Rattle.search_core.specs.Hand.{Standing, IsHand};

    ghost Value = { Standing };

    ghost view = { λ hand. record {
      count = hand.count;
      block = hand.block;
      phase = hand.phase;
      seen = hand.seen;
      last = hand.last;
    } };

    ghost invariant = { λ hand. IsHand (record {
      count = hand.count;
      block = hand.block;
      phase = hand.phase;
      seen = hand.seen;
      last = hand.last;
    }) };

    ghost inverse = { λ hand. record {
      count = hand.count;
      block = hand.block;
      phase = hand.phase;
      seen = hand.seen;
      last = hand.last;
    } };
}

/// The phase after a claim of the block that begins at `start`.
fn opened(start: u64, seen: u64) -> Phase
    ensures { result ≡ (if nat_lt start seen then Phase.Look start else Phase.Over) }
{
    if start < seen {
        Phase::Look(start)
    } else {
        Phase::Over
    }
}

/// The phase after a look at `at`.
fn looked(at: u64, seen: u64) -> Phase
    ensures { result ≡ (if nat_lt at seen then Phase.Try at else Phase.Claim) }
{
    if at < seen {
        Phase::Try(at)
    } else {
        Phase::Claim
    }
}

/// The phase after a try of `at` in vain, in a block that ends before `end`.
fn missed(at: u64, end: u64) -> Phase
    requires { at < 2 ^ 40 }
    ensures { result ≡ (if nat_eq (at + 1) end then Phase.Claim else Phase.Look (at + 1)) }
{
    if at + 1 == end {
        Phase::Claim
    } else {
        Phase::Look(at + 1)
    }
}

/// The number after the last one of the block that was claimed last.
fn end_of(count: u64, block: u64, last: Option<u64>) -> u64
    requires positive { 0 < block }
    requires block { block ≤ 2 ^ 20 }
    requires start { IfSome last (λ n. n * block < 2 ^ 40) }
    ensures { result ≡ end_at count block last }
{
    match last {
        Some(n) => ((n + 1) * block).min(count),
        None => 0,
    }
}

impl Hand {
    /// A hand of a search among the numbers below `count`, in blocks of `block` numbers.
    pub fn new(count: u64, block: u64) -> Hand
        requires count { count ≤ 2 ^ 40 }
        requires positive { 0 < block }
        requires block { block ≤ 2 ^ 20 }
        ensures fresh { result ≡ fresh count block }
        ensures sound { IsHand result }
        ensures leaves { (left : ℕ → Bool) → LeavesNone left result }
        ensures posts { (meets : ℕ → Bool) → PostsMet meets result }
        ensures tried { HasTried None result }
    {
        Hand {
            count,
            block,
            phase: Phase::Claim,
            seen: count,
            last: None,
        }
    }

    /// What the hand asks for now.
    pub fn next(&self) -> Ask
        ensures asks { result ≡ ask_of self.now.phase }
        ensures phase { Matches result self.now.phase }
        ensures sound { IsHand self.now }

        // A hand that claims left no number of its block behind, and its block began below the count.
        ensures claim_leaves { (left : ℕ → Bool) → LeavesNone left self.now → result ≡ Ask.Claim → NoneLeft left self.now }
        ensures claim_starts { result ≡ Ask.Claim → IfSome self.now.last (λ n. n * self.now.block < self.now.count) }
        // What it tries lies in its open block below the least seen, and what it posts meets besides.
        ensures tries { IfTry result (λ k. InOpen self.now k × (k < self.now.seen)) }
        ensures posts { IfPost result (λ k. InOpen self.now k × (k < self.now.seen)) }
        ensures post_meets { (meets : ℕ → Bool) → PostsMet meets self.now → IfPost result (λ k. meets k ≡ true) }
        // It tries the numbers of a block one after the other.
        ensures comes { (last : Option ℕ) → HasTried last self.now → IfTry result (ComesTo last self.now) }
        // The last claim of one that is over starts at or above the least seen.
        ensures over { result ≡ Ask.Over → IsSomeAnd self.now.last (λ n. self.now.seen ≤ n * self.now.block) }
    {
        match self.phase {
            Phase::Claim => Ask::Claim,
            Phase::Look(_) => Ask::Look,
            Phase::Try(at) => Ask::Try(at),
            Phase::Post(at) => Ask::Post(at),
            Phase::Over => Ask::Over,
        }
    }

    /// Takes the answer to what the hand asked for.
    pub fn told(&mut self, answer: Answer)
        requires { Answers self.old answer }
        ensures told { self.new ≡ told self.old answer }
        ensures sound { IsHand self.new }
        ensures leaves { (left : ℕ → Bool) → HoldsIfMissed left self.old answer → LeavesNone left self.old → LeavesNone left self.new }
        ensures posts { (meets : ℕ → Bool) → HoldsIfMet meets self.old answer → PostsMet meets self.new }
        ensures work { LeavesLess self.old answer self.new }
        ensures tried { (last : Option ℕ) → ClaimsAbove self.old answer → HasTried last self.old → HasTried (tried_after last self.old answer) self.new }
    {
        match (self.phase, answer) {
            (Phase::Claim, Answer::Block(block)) => {
                self.last = Some(block);
                self.phase = opened(block * self.block, self.seen);
            }
            (Phase::Look(at), Answer::Least(least)) => {
                self.seen = self.seen.min(least);
                self.phase = looked(at, self.seen);
            }
            (Phase::Try(at), Answer::Missed) => {
                self.phase = missed(at, end_of(self.count, self.block, self.last));
            }
            (Phase::Try(at), Answer::Met) => self.phase = Phase::Post(at),
            (Phase::Post(at), Answer::Least(least)) => {
                self.seen = self.seen.min(least).min(at);
                self.phase = Phase::Claim;
            }
            _ => unreachable!(),
        }
    }
}
