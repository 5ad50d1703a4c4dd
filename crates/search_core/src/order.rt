//! Turns under an order: first those that the order names, then round after round, until all hands have ended.

ghost use Rattle.std.specs.Prelude.{◌≡◌, ◌≢◌, ℕ, ◌+◌, ◌-◌, ◌*◌, ◌^◌, ◌<◌, ◌≤◌, ◌⊎◌, ◌↔◌, Bool, true, false, List, length, drop, ◌++◌, All, IsTrue, IfOk, IfSome, IsNone, OnSome, Option, None, slice_index, slice_index_or};
ghost use Rattle.search_core.specs.declared.hand.Phase.TheVariants as phases;
ghost use Rattle.search_core.specs.Numbers.{first_of};
ghost use Rattle.search_core.specs.Hand.{Standing, told};
ghost use Rattle.search_core.specs.Machine.{Machine, opening, hand_at, tried, verdict, AllOver, IsMachine, IsMeets, is_in, Covers, Fits, work, run, IfTurnTries};
ghost use Rattle.search_core.specs.Order.{IsSearch, Asks, hand_next, number_next, numbers_from, rounds, is_over, taken, events, events_of, hands_of, greatest, Progress, Follows};
ghost use Rattle.search_core.specs.Trail.{HaveTried, TriesNow};
ghost use Rattle.search_core.specs.Dues.{left_to};
ghost use Rattle.search_core.specs.Keeps.{Carries};
ghost use Rattle.search_core.specs.Places.{KnowsNext};
ghost use Rattle.search_core.specs.Schedules.{RunsNext, left_of};

use crate::machine::{Core, Memory, Turn};
use crate::named::Turns;
use std::alloc::Global;
use std::marker::Model;

/// Whatever hands take their turns in whatever order, the least number that is known is the count or
/// meets, and where all hands have ended it is the first number that meets.
pub fn any_order()
    ensures known { (count block hands : ℕ) (meets order : List ℕ) → IsSearch count block hands meets → All (λ i. i < hands) order
        → ((run (is_in meets) (opening count block hands) order).least ≡ count)
        ⊎ IsTrue (is_in meets (run (is_in meets) (opening count block hands) order).least) }
    ensures first { (count block hands : ℕ) (meets order : List ℕ) → IsSearch count block hands meets → All (λ i. i < hands) order
        → AllOver (run (is_in meets) (opening count block hands) order)
        → (run (is_in meets) (opening count block hands) order).least ≡ first_of count meets }
{}

/// The number of turns under an order is that of the turns until all hands have ended, however many
/// rounds more are made, and there are fewer than 2^43.
pub fn number_of_turns()
    ensures ends { (count block hands : ℕ) (meets order : List ℕ) → IsSearch count block hands meets → All (λ i. i < hands) order
        → (enough : ℕ) × AllOver (run (is_in meets) (opening count block hands) (order ++ rounds enough hands)) }
    ensures same { (count block hands : ℕ) (meets order : List ℕ) (enough : ℕ) → IsSearch count block hands meets → All (λ i. i < hands) order
        → AllOver (run (is_in meets) (opening count block hands) (order ++ rounds enough hands))
        → taken (is_in meets) (opening count block hands) (order ++ rounds enough hands) ≡ events (is_in meets) (opening count block hands) order }
    ensures few { (count block hands : ℕ) (meets order : List ℕ) → IsSearch count block hands meets → All (λ i. i < hands) order
        → events (is_in meets) (opening count block hands) order < 2 ^ 43 }
{}

/// A number that a hand is to try.
#[derive(Clone, Copy, Debug, PartialEq, Eq)]
pub struct Trial {
    pub hand: u32,
    pub number: u64,
}

/// A search whose hands take their turns under an order: first as the order names them, and then round
/// after round from hand 0. The turn of a hand that has ended is skipped. Contracts see it as a `Progress`.
#[derive(Debug, Drop)]
pub struct Schedule<'a> {
    core: Core,
    turns: &'a Turns,
    next: Vec<usize>,
    place: usize,
    at: u32,
    taken: u64,
}

impl<'a> Model for Schedule<'a> {
    ghost use Rattle.std.specs.Prelude.{length};
    ghost use Rattle.search_core.specs.Order.{Progress};
    ghost use Rattle.search_core.specs.Places.{KnowsNext};
    ghost use Rattle.search_core.specs.Schedules.{left_of, IsSchedule};

    ghost Value = { Progress };

    ghost view = { λ s. record {
      core = s.core;
      left = left_of s.turns.now s.place s.at (length s.core.hands);
      taken = s.taken;
    } };

    ghost invariant = { λ s. IsSchedule s.core s.turns.now s.at s.taken × KnowsNext s.core s.turns.now s.place s.next.items };
}

/// The least of a place and of the next place of a hand that has not ended.
fn nearer(core: &Core, next: &[usize], hand: u32, place: usize) -> usize
    requires hand { hand < length core.now.hands }
    requires long { length next.now ≡ length core.now.hands }
    ensures no_later { result ≤ place }
    ensures this { is_over core.now hand ≡ false → result ≤ slice_index next.now hand }
    ensures one { (result ≡ place) ⊎ ((is_over core.now hand ≡ false) × (result ≡ slice_index next.now hand)) }
{
    if core.is_over(hand) {
        return place;
    }
    place.min(next[hand as usize])
}

/// The first place of the order from `place` on whose hand has not ended, or the order's end. `next` has for each hand
/// that has not ended where it comes next.
fn running_place(core: &Core, turns: &Turns, next: &[usize], place: usize) -> usize
    requires hands { All (λ i. i < length core.now.hands) turns.now }
    requires known { KnowsNext core.now turns.now place next.now }
    ensures turns { (meets : ℕ → Bool) (at : ℕ) → events meets core.now (left_of turns.now result at (length core.now.hands))
        ≡ events meets core.now (left_of turns.now place at (length core.now.hands)) }
    ensures found { result < length turns.now → is_over core.now (slice_index turns.now result) ≡ false }
    ensures known { KnowsNext core.now turns.now result next.now }
{
    if place >= turns.len() {
        return place;
    }
    if !core.is_over(turns.hand(place)) {
        return place;
    }
    let mut nearest = turns.len();
    for hand in 0..core.hands() {
        nearest = nearer(core, next, hand, nearest);
    }
    nearest
}

/// The next hand of a round that has not ended, in this round or in the one after it, or the number of hands.
fn running_hand(core: &Core, at: u32) -> u32
    requires round { at ≤ length core.now.hands }
    ensures round { result ≤ length core.now.hands }
    ensures turns { (meets : ℕ → Bool) → events meets core.now (numbers_from result (length core.now.hands - result))
        ≡ events meets core.now (numbers_from at (length core.now.hands - at)) }
    ensures found { result < length core.now.hands → is_over core.now result ≡ false }
    ensures none { result ≡ length core.now.hands → AllOver core.now }
{
    let next = core.running_from(at);
    if next < core.hands() {
        return next;
    }
    core.running_from(0)
}

impl<'a> Schedule<'a> {
    /// A search among the numbers below `count`, in blocks of `block` numbers, by as many hands as the order
    /// asks for.
    pub fn new(
        alloc: Global,
        count: u64,
        block: u64,
        turns: &'a Turns,
    ) -> Result<Schedule<'a>, Memory>
        requires count { count ≤ 2 ^ 40 }
        requires positive { 0 < block }
        requires block { block ≤ 2 ^ 20 }
        ensures core { IfOk result (λ search. search.core ≡ opening count block (hands_of turns.now)) }
        ensures follows { IfOk result (λ search. (meets : List ℕ) → IsMeets count meets → Follows meets (events_of count block meets turns.now) search) }
        ensures covers { IfOk result (λ search. (left : ℕ → Bool) → Covers left search.core) }
        ensures tried { IfOk result (λ search. HaveTried (λ _. None) search.core) }
    {
        let core = Core::new(alloc, count, block, turns.hands())?;
        let next = turns.first_places(alloc)?;
        Ok(Schedule {
            core,
            turns,
            next,
            place: 0,
            at: 0,
            taken: 0,
        })
    }

    /// Passes over the hands that have ended, and says whether there is one that has not.
    fn skip(&mut self) -> bool
        ensures core { self.new.core ≡ self.old.core }
        ensures taken { self.new.taken ≡ self.old.taken }
        ensures turns { (meets : ℕ → Bool) → events meets self.new.core self.new.left ≡ events meets self.old.core self.old.left }
        ensures found { IsTrue result → RunsNext self.new }
        ensures none { result ≡ false → AllOver self.new.core }
        ensures ended { result ≡ false → (meets : ℕ → Bool) → events meets self.new.core self.new.left ≡ 0 }
        ensures sound { IsMachine self.new.core }
    {
        self.place = running_place(&self.core, self.turns, &self.next, self.place);
        if self.place < self.turns.len() {
            return true;
        }
        self.at = running_hand(&self.core, self.at);
        self.at < self.core.hands()
    }

    /// The hand whose turn comes next.
    fn front(&self) -> u32
        requires { 0 < length self.now.left }
        ensures next { result ≡ hand_next self.now }
        ensures hand { result < length self.now.core.hands }
    {
        if self.place < self.turns.len() {
            self.turns.hand(self.place)
        } else {
            self.at
        }
    }

    /// Counts the turn of the hand whose turn came, and passes it.
    fn pass(&mut self)
        requires some_hand { 0 < length self.old.left }
        requires few { self.old.taken + work self.old.core < 2 ^ 43 }
        ensures { self.new ≡ record self.old { left = drop 1 self.old.left; taken = self.old.taken + 1 } }
    {
        if self.place < self.turns.len() {
            self.turns.pass(self.place, &mut self.next);
            self.place += 1;
        } else {
            self.at += 1;
        }
        self.taken += 1;
    }

    /// Takes the next turn, of a hand that has not ended.
    fn turn(&mut self) -> Turn
        requires { RunsNext self.old }
        ensures carries { Carries self.old self.new }
        ensures did { result ≡ Turn.Did → work self.new.core < work self.old.core }
        ensures tries { IfTurnTries result (λ k. Asks self.new × (number_next self.new ≡ k) × (k < self.new.core.count)) }
        ensures sound { IsMachine self.new.core }
        ensures never { result ≢ Turn.Over }
    {
        let hand = self.front();
        match self.core.turn(hand) {
            Turn::Did => {
                self.pass();
                Turn::Did
            }
            other => other,
        }
    }

    /// Takes turns until a hand is to try a number, and answers which; or until all hands have ended. The trial
    /// stays until `tried` is called.
    pub fn next_try(&mut self) -> Option<Trial>
        // What holds of the search before holds after the claims, looks and posts on the way.
        ensures carries { Carries self.old self.new }
        ensures sound { IsMachine self.new.core }
        ensures trial { IfSome result (λ trial. Asks self.new × (trial.hand ≡ hand_next self.new) × (trial.number ≡ number_next self.new)) }
        ensures phase { IfSome result (λ trial. (hand_at self.new.core trial.hand).phase ≡ phases.Try trial.number) }
        ensures there { IfSome result (λ trial. trial.hand < length self.new.core.hands) }
        ensures within { IfSome result (λ trial. trial.number < self.new.core.count) }

        // Where no trial is left, all hands have ended, and every number below the least was tried or met.
        ensures over { IsNone result → AllOver self.new.core }
        ensures none_left { IsNone result → (left : ℕ → Bool) → Covers left self.new.core → (n : ℕ) → left n ≡ true → n < self.new.core.least → ⊥ }
        ensures done { IsNone result → (meets : List ℕ) (all : ℕ) → Follows meets all self.new
            → (self.new.taken ≡ all) × (self.new.core.least ≡ first_of self.new.core.count meets) }
    {
        while self.skip() {
            if let Turn::Try(number) = self.turn() {
                let hand = self.front();
                return Some(Trial { hand, number });
            }
        }
        None
    }

    /// Tells the hand whose turn comes next whether the number that it is to try meets.
    pub fn tried(&mut self, met: bool)
        requires { Asks self.old }
        ensures follows { (meets : List ℕ) (all : ℕ) → met ≡ is_in meets (number_next self.old)
            → Follows meets all self.old → Follows meets all self.new }
        ensures covers { (left : ℕ → Bool) → (met ≡ false → left (number_next self.old) ≡ false)
            → Covers left self.old.core → Covers left self.new.core }
        ensures core { self.new.core ≡ tried self.old.core (hand_next self.old) met }
        ensures sound { IsMachine self.new.core }
        ensures work { work self.new.core < work self.old.core }
        ensures tried { (last now : ℕ → Option ℕ) → TriesNow (hand_next self.old) (number_next self.old) last now
            → HaveTried last self.old.core → HaveTried now self.new.core }
        // What is left to the hands changes by that hand's alone.
        ensures left { (left : Standing → ℕ) → let hand = hand_at self.old.core (hand_next self.old) in
            left_to left self.new.core + left hand ≡ left_to left self.old.core + left (told hand (verdict met)) }
    {
        let hand = self.front();
        self.core.tried(hand, met);
        self.pass();
    }

    /// How many hands there are.
    pub fn hands(&self) -> u32
        ensures hands { result ≡ length self.now.core.hands }
        ensures some_hand { 0 < result }
        ensures few { result ≤ 64 }
        ensures sound { IsMachine self.now.core }
    {
        self.core.hands()
    }

    /// How many turns were taken.
    pub fn turns(&self) -> u64
        ensures { result ≡ self.now.taken }
    {
        self.taken
    }

    /// The least number that was posted, or the count.
    pub fn least(&self) -> u64
        ensures { result ≡ self.now.core.least }
    {
        self.core.least()
    }
}
