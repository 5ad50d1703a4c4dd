//! The board and its seats.
ghost use Rattle.std.specs.Prelude.{◌≡◌, ℕ, ◌+◌, ◌^◌, ◌<◌, ◌≤◌, List, All, Contains, IfOk, sum_by};
ghost use Rattle.std.specs.Option.{ForSome};
ghost use Rattle.std.specs.List.Sorted.{IsStrictlyIncreasing};
ghost use Rattle.search_core.specs.Numbers.{block_count, first_of, sum_below};
ghost use Rattle.claim_board.specs.Views.{opening, split_off, after_split, claimed, looked, posted, joined, IsInOpenBlock, StartedBelowCount, HasTriedOpenBlock, HasEnded, IsOver, IsLeastWord};
ghost use Rattle.claim_board.specs.Rule.{times};
ghost use Rattle.claim_board.specs.Seated.{Seated, IsSeatOf};

use crate::memory::Memory;
use crate::rule::{Claim, Kept, Look, Post, SplitOff, TakeIn};
use crate::view::{Key, View};
use atomic_table::Table;
use std::alloc::Global;
use std::marker::{Brand, Model};

// The word that has the number of the next block.
const NEXT: usize = 0;

// The word that has the least number found.
const LEAST: usize = 1;

/// The two words that all workers share.
#[derive(Drop)]
pub struct Board {
    table: Table<(), View, Key, Kept, Global>,
}

impl Model for Board {
    ghost use Rattle.std.specs.Prelude.{◌≡◌};
    ghost use Rattle.atomic_table.specs.Seated.{TableId, table_id_coded};

    ghost Value = { TableId };

    ghost coded = { table_id_coded };

    ghost view = { λ b. b.table.shared.table_id };

    ghost invariant = { λ b. (b.table.shared.table_id.words ≡ 2) × (b.table.shared.table_id.slots ≡ 0) };
}

/// What one worker knows of a board. It takes no bytes.
#[derive(Drop)]
pub struct Seat {
    seat: atomic_table::Seat<(), View>,
}

impl Model for Seat {
    ghost use Rattle.std.specs.Prelude.{◌≡◌, ◌<◌, []};
    ghost use Rattle.claim_board.specs.Seated.{Seated};

    ghost Value = { Seated };

    ghost view = { λ s. record { board = s.seat.table_id; view = s.seat.me.0 } };

    ghost invariant = { λ s. (s.seat.me.1 ≡ []) × (0 < s.seat.me.0.parts) };
}

impl Board {
    /// A board for the numbers below `count`, in blocks of `block`, and its first seat. The caller says which
    /// numbers meet, rising, by `meets`, which is there for proofs alone.
    ///
    /// Making a seat, here and in [`Board::split`], is one load of the word `next`.
    pub fn new(alloc: Global, count: u64, block: u64) -> Result<(Board, Seat), Memory>
        ghost meets: { List ℕ }
        requires count { count ≤ 2 ^ 40 }
        requires block { (1 ≤ block) × (block ≤ 2 ^ 20) }
        requires rising { IsStrictlyIncreasing meets }
        requires within { All (λ k. k < count) meets }
        ensures seat { IfOk result (λ made. IsSeatOf made.0 made.1) }
        ensures view { IfOk result (λ made. made.1.view ≡ opening count block meets) }
    {
        let key = Key { count, block };
        let (table, mut seat) = Table::of_words(alloc, &[0, count], &key)?;
        table.shared.load::<Brand>(&mut seat, NEXT);
        Ok((Board { table }, Seat { seat }))
    }

    /// A new seat, for another worker. One load of the word `next`.
    pub fn split(&self, seat: &mut Seat) -> Seat
        requires seat { IsSeatOf self.now seat.old }
        requires spare { 1 ≤ seat.old.view.spare }
        ensures old { seat.new ≡ record seat.old { view = after_split seat.old.view } }
        ensures new { result ≡ record seat.old { view = split_off seat.old.view } }
    {
        Seat {
            seat: self.table.shared.split_seat::<SplitOff>(&mut seat.seat),
        }
    }

    /// The number of a block that nobody had claimed. It is the seat's open block now: one that starts at or
    /// above the least number that the seat has seen, at first the count, ends its work. One `fetch_add` on the word `next`.
    pub fn claim(&self, seat: &mut Seat) -> u64
        requires seat { IsSeatOf self.now seat.old }
        requires started { StartedBelowCount seat.old.view }
        requires tried { HasTriedOpenBlock seat.old.view }
        ensures view { seat.new ≡ record seat.old { view = claimed seat.old.view result } }
        ensures above { All (λ n. n < result) seat.old.view.mine }
        ensures above_last { ForSome seat.old.view.last (λ last. last < result) }
        ensures few { result ≤ block_count seat.old.view.count seat.old.view.block + 64 }
    {
        self.table
            .shared
            .fetch_add::<Claim>(&mut seat.seat, NEXT, 1)
    }

    /// The least number found so far, by any worker, or the count. One load of the word `least`.
    pub fn look(&self, seat: &mut Seat) -> u64
        requires { IsSeatOf self.now seat.old }
        ensures view { seat.new ≡ record seat.old { view = looked seat.old.view result } }
        ensures least { IsLeastWord seat.old.view result }
        ensures falls { result ≤ seat.old.view.seen }
        ensures within { result ≤ seat.old.view.count }
    {
        self.table.shared.load::<Look>(&mut seat.seat, LEAST)
    }

    /// Tells all workers that `k` meets, and answers the least number found before. One `fetch_min` on the word
    /// `least`.
    pub fn post(&self, seat: &mut Seat, k: u64) -> u64
        requires seat { IsSeatOf self.now seat.old }
        requires open { IsInOpenBlock seat.old.view k }
        requires meets { Contains seat.old.view.meets k }
        ensures view { seat.new ≡ record seat.old { view = posted seat.old.view result k } }
        ensures least { IsLeastWord seat.old.view result }
        ensures falls { result ≤ seat.old.view.seen }
        ensures within { result ≤ seat.old.view.count }
    {
        self.table
            .shared
            .fetch_min::<Post>(&mut seat.seat, LEAST, k)
    }

    /// Makes the two seats one, once the other worker has ended. One load of the word `next`.
    pub fn join(&self, seat: &mut Seat, other: Seat)
        requires seat { IsSeatOf self.now seat.old }
        requires other { IsSeatOf self.now other }
        requires ended { HasEnded other.view }
        ensures { seat.new ≡ record seat.old { view = joined seat.old.view other.view } }
    {
        let shared = &self.table.shared;
        shared.join_seat::<TakeIn>(&mut seat.seat, other.seat);
    }

    /// The first number that meets, or the count where none does. All other seats were joined into this one.
    ///
    /// Of the seat's blocks it says that each number below the last claim's is among them, and none twice. So
    /// whatever is counted of each block adds up, over the seat's blocks, to what it is over the blocks from 0
    /// to some `next`, which is above the last claim.
    pub fn close(self, seat: Seat) -> u64
        requires seat { IsSeatOf self seat }
        requires all { seat.view.parts + seat.view.spare ≡ 64 }
        requires over { IsOver seat.view }
        ensures first { result ≡ first_of seat.view.count seat.view.meets }
        ensures each { ForSome seat.view.last (λ last. (n : ℕ) → n < last → Contains seat.view.mine n) }
        ensures once { (n : ℕ) → times n seat.view.mine ≤ 1 }
        ensures weighed { (next : ℕ) × ForSome seat.view.last (λ last. last < next)
            × ((f : ℕ → ℕ) → sum_by f seat.view.mine ≡ sum_below f next) }
    {
        let closed = self.table.close_with(seat.seat);
        let least = closed.word(LEAST);
        closed.free();
        least
    }
}
