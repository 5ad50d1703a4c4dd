//! The turns that an order names, and where each hand comes next among them.

ghost use Rattle.std.specs.Prelude.{◌≡◌, ℕ, ◌+◌, ◌<◌, ◌≤◌, length, slice_index, All, IfOk};
ghost use Rattle.search_core.specs.Machine.{Machine};
ghost use Rattle.search_core.specs.Order.{hands_of};
ghost use Rattle.search_core.specs.Places.{ComesNext, AreFound, KnowsNext};

use crate::machine::Memory;
use std::alloc::Global;
use std::marker::Model;

/// An order of hands below 64 that was read once, for any number of searches. It knows where each hand comes next, so
/// that a search costs its hands and its turns, however long the order is. Contracts see it as the list of its hands.
#[derive(Debug, Drop)]
pub struct Turns {
    hands: Vec<u8>,
    first: Vec<usize>,
    next: Vec<usize>,
}

impl Model for Turns {
    ghost use Rattle.std.specs.Prelude.{ℕ, List};
    ghost use Rattle.search_core.specs.Places.{AreTurns};

    ghost Value = { List ℕ };

    ghost view = { λ turns. turns.hands.items };

    ghost invariant = { λ turns. AreTurns turns.hands.items turns.first.items turns.next.items };
}

/// As many hands as an order asks for: one more than its greatest number.
fn hands_for(order: &[u8]) -> u32
    requires { All (λ i. i < 64) order.now }
    ensures hands { result ≡ hands_of order.now }
    ensures few { result ≤ 64 }
    ensures each { All (λ i. i < result) order.now }
{
    let mut greatest = 0;
    for hand in order {
        greatest = greatest.max(*hand);
    }
    u32::from(greatest) + 1
}

/// A copy of an order.
fn copy_of(alloc: Global, order: &[u8]) -> Result<Vec<u8>, Memory>
    ensures { IfOk result (λ v. v.items ≡ order.now) }
{
    Vec::from_slice(alloc, order).map_err(|_| Memory)
}

/// A list of so many equal places.
fn filled(alloc: Global, place: usize, count: usize) -> Result<Vec<usize>, Memory>
    ensures long { IfOk result (λ places. length places.items ≡ count) }
    ensures all { IfOk result (λ places. All (λ k. k ≡ place) places.items) }
{
    vec![in alloc; place; count].map_err(|_| Memory)
}

/// Finds where each hand comes next, from the last place to the first.
fn find_places(order: &[u8], first: &mut [usize], next: &mut [usize])
    requires long { length next.old ≡ length order.now }
    requires each { All (λ i. i < length first.old) order.now }
    requires empty { All (λ k. k ≡ length order.now) first.old }
    ensures long { length first.new ≡ length first.old }
    ensures found { AreFound order.now first.new next.new 0 }
{
    for place in (0..order.len()).rev() {
        let hand = order[place] as usize;
        next[place] = first[hand];
        first[hand] = place;
    }
}

impl Turns {
    /// The turns of an order.
    pub fn new(alloc: Global, order: &[u8]) -> Result<Turns, Memory>
        requires { All (λ hand. hand < 64) order.now }
        ensures { IfOk result (λ turns. turns ≡ order.now) }
    {
        let hands = copy_of(alloc, order)?;
        let mut first = filled(alloc, order.len(), hands_for(order) as usize)?;
        let mut next = filled(alloc, order.len(), order.len())?;
        find_places(order, &mut first, &mut next);
        Ok(Turns { hands, first, next })
    }

    /// As many hands as the order asks for.
    pub(crate) fn hands(&self) -> u32
        ensures hands { result ≡ hands_of self.now }
        ensures few { result ≤ 64 }
        ensures each { All (λ i. i < result) self.now }
    {
        self.first.len() as u32
    }

    /// How many turns the order names.
    pub(crate) fn len(&self) -> usize
        ensures { result ≡ length self.now }
    {
        self.hands.len()
    }

    /// The hand that has its turn at a place.
    pub(crate) fn hand(&self, place: usize) -> u32
        requires { place < length self.now }
        ensures { result ≡ slice_index self.now place }
    {
        u32::from(self.hands[place])
    }

    /// Where the hand that has its turn at a place comes next.
    pub(crate) fn after(&self, place: usize) -> usize
        requires { place < length self.now }
        ensures { ComesNext self.now (slice_index self.now place) (place + 1) result }
    {
        self.next[place]
    }

    /// Where each hand comes first.
    pub(crate) fn first_places(&self, alloc: Global) -> Result<Vec<usize>, Memory>
        ensures long { IfOk result (λ places. length places.items ≡ hands_of self.now) }
        ensures comes { IfOk result (λ places. (hand : ℕ) → hand < hands_of self.now
            → ComesNext self.now hand 0 (slice_index places.items hand)) }
    {
        Vec::from_slice(alloc, &self.first).map_err(|_| Memory)
    }

    /// Writes down where the hand that has its turn at a place comes after it.
    pub(crate) fn pass(&self, place: usize, next: &mut [usize])
        requires place { place < length self.now }
        requires hand { slice_index self.now place < length next.old }
        ensures known { (core : Machine) → KnowsNext core self.now place next.old → KnowsNext core self.now (place + 1) next.new }
    {
        next[self.hand(place) as usize] = self.after(place);
    }
}
