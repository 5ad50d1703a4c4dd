//! The thinkers of a world as they are kept: those that have ended may be left out.
ghost use Rattle.std.specs.Prelude.{◌≡◌, ℕ, ◌+◌, ◌*◌, ◌<◌, ◌≤◌, ◌^◌, ◌≢◌, IsTrue, IsFalse, List, [], ◌∷◌, ◌++◌, length, filter, position, slice_get, slice_index_or, slice_set, Some, OnOk, OnErr, IfOk};
ghost use Rattle.page_store.specs.Pages.{page_count};
ghost use Rattle.page_store.specs.Over.{seen, IsOver};
ghost use Rattle.cow_world.specs.declared.records.Thinker.TheVariants.{Ended};
ghost use Rattle.cow_world.specs.declared.kept_thinkers.Placed.{Placed as PlacedValue};
ghost use Rattle.cow_world.specs.KeptThinkers.{stands_at, has_ended, is_running, no_entry, Rise, AreMade, thinkers_in, IsKeptThinkers};

use crate::records::Thinker;
use doom_edge::{Memory, Steps};
use page_store::Pages;
use std::alloc::Global;

// Fewer that have ended are not worth a new list.
const FEW_ENDED: u32 = 32;

/// The places from `start` on, up to the one before `end`.
#[derive(Clone, Copy, Debug, PartialEq, Eq)]
pub struct Stretch {
    pub start: u32,
    pub end: u32,
}

// A thinker with its place among all that were made.
#[derive(Clone, Copy)]
pub(crate) struct Placed {
    place: u32,
    thinker: Thinker,
}

// The thinkers of a world, of which so many were made. A place that is not kept has ended. The kept ones stand in the
// order of their places, in pages over a base that stands elsewhere and is passed to each call; as long as none was
// left out, or only later ones were, a thinker stands at its place. One that came back to life after it was left out
// stands among the revived, which no rule of play brings about.
#[derive(Drop)]
pub(crate) struct KeptThinkers {
    made: u32,
    kept: Pages<Placed>,
    revived: Vec<Placed>,
    // How many have ended since some were last left out. Nothing but the time to leave some out rests on it.
    ended: u32,
}

impl KeptThinkers {
    // No thinkers, over no base.
    pub(crate) fn none(alloc: Global) -> KeptThinkers
        ensures list { IsKeptThinkers [] result }
        ensures none { thinkers_in [] result ≡ [] }
    {
        KeptThinkers {
            made: 0,
            kept: Pages::over(alloc, &[]),
            revived: Vec::new(alloc),
            ended: 0,
        }
    }

    // Lets all thinkers go, whatever the base is. It takes no memory.
    pub(crate) fn clear(&mut self)
        ensures list { (base : List PlacedValue) → IsKeptThinkers base self.new }
        ensures none { (base : List PlacedValue) → thinkers_in base self.new ≡ [] }
    {
        self.made = 0;
        self.kept.clear();
        self.revived.clear();
        self.ended = 0;
    }

    // How many were made.
    pub(crate) fn len(&self) -> u32
        ensures { (base : List PlacedValue) → result ≡ length (thinkers_in base self.now) }
    {
        self.made
    }

    // The thinker at a place.
    pub(crate) fn get(&self, base: &[Placed], place: u32) -> Thinker
        requires list { IsKeptThinkers base.now self.now }
        requires there { place < length (thinkers_in base.now self.now) }
        ensures { slice_get (thinkers_in base.now self.now) place ≡ Some result }
    {
        if let Some(k) = position_in(&self.revived, place) {
            return self.revived[k].thinker;
        }
        match self.position(base, place) {
            Some(k) => self.kept.get(base, k).thinker,
            None => Thinker::Ended,
        }
    }

    // Writes the thinker at a place. On `Memory` all is as before.
    pub(crate) fn set(
        &mut self,
        base: &[Placed],
        place: u32,
        to: Thinker,
        steps: &mut Steps,
    ) -> Result<(), Memory>
        requires list { IsKeptThinkers base.now self.old }
        requires there { place < length (thinkers_in base.now self.old) }
        ensures list { IsKeptThinkers base.now self.new }
        ensures ok { OnOk result (thinkers_in base.now self.new ≡ slice_set (thinkers_in base.now self.old) place to) }
        ensures err { OnErr result (thinkers_in base.now self.new ≡ thinkers_in base.now self.old) }

        ensures tics { steps.new.tics ≡ steps.old.tics }
        ensures least { steps.old.pages ≤ steps.new.pages }
        ensures most { steps.new.pages ≤ steps.old.pages + 34 }
    {
        self.ended = count_with(self.ended, &to);
        self.write(base, place, to, steps)
    }

    // The same, without counting those that end.
    fn write(
        &mut self,
        base: &[Placed],
        place: u32,
        to: Thinker,
        steps: &mut Steps,
    ) -> Result<(), Memory>
        requires list { IsKeptThinkers base.now self.old }
        requires there { place < length (thinkers_in base.now self.old) }
        ensures list { IsKeptThinkers base.now self.new }
        ensures ok { OnOk result (thinkers_in base.now self.new ≡ slice_set (thinkers_in base.now self.old) place to) }
        ensures err { OnErr result (thinkers_in base.now self.new ≡ thinkers_in base.now self.old) }

        ensures tics { steps.new.tics ≡ steps.old.tics }
        ensures least { steps.old.pages ≤ steps.new.pages }
        ensures most { steps.new.pages ≤ steps.old.pages + 34 }
    {
        let entry = Placed { place, thinker: to };
        if let Some(k) = position_in(&self.revived, place) {
            self.revived[k] = entry;
            return Ok(());
        }
        if let Some(k) = self.position(base, place) {
            self.kept.set(base, k, entry, steps)?;
            return Ok(());
        }
        if has_ended(&to) {
            return Ok(());
        }
        self.revived.push(entry)?;
        Ok(())
    }

    // Adds a thinker behind the others. On `Memory` all is as before.
    pub(crate) fn push(
        &mut self,
        base: &[Placed],
        thinker: Thinker,
        steps: &mut Steps,
    ) -> Result<(), Memory>
        requires list { IsKeptThinkers base.now self.old }
        requires room { length (thinkers_in base.now self.old) + 1 < 2 ^ 32 }
        ensures list { IsKeptThinkers base.now self.new }
        ensures ok { OnOk result (thinkers_in base.now self.new ≡ thinkers_in base.now self.old ++ thinker ∷ []) }
        ensures err { OnErr result (thinkers_in base.now self.new ≡ thinkers_in base.now self.old) }

        ensures tics { steps.new.tics ≡ steps.old.tics }
        ensures least { steps.old.pages ≤ steps.new.pages }
        ensures most { steps.new.pages ≤ steps.old.pages + 34 }
    {
        let entry = Placed {
            place: self.made,
            thinker,
        };
        self.kept.push(base, entry, steps)?;
        self.made += 1;
        Ok(())
    }

    // Second thinkers that are the same, over the same base. A later write to either leaves the others.
    pub(crate) fn fork(
        &mut self,
        base: &[Placed],
        steps: &mut Steps,
    ) -> Result<KeptThinkers, Memory>
        requires { IsKeptThinkers base.now self.old }
        ensures list { IsKeptThinkers base.now self.new }
        ensures forked { IfOk result (λ forked. IsKeptThinkers base.now forked) }
        ensures same { IfOk result (λ forked. thinkers_in base.now forked ≡ thinkers_in base.now self.old) }
        ensures kept { thinkers_in base.now self.new ≡ thinkers_in base.now self.old }

        ensures tics { steps.new.tics ≡ steps.old.tics }
        ensures least { steps.old.pages ≤ steps.new.pages }
        ensures most { steps.new.pages ≤ steps.old.pages + 2 * page_count (length (thinkers_in base.now self.old)) }
    {
        let alloc = *self.revived.allocator();
        Ok(KeptThinkers {
            made: self.made,
            kept: self.kept.fork(base, steps)?,
            revived: Vec::from_slice(alloc, &self.revived)?,
            ended: self.ended,
        })
    }

    // The same thinkers over a base of their own, which comes first. Each that is kept is copied by one step.
    pub(crate) fn own(
        &self,
        base: &[Placed],
        steps: &mut Steps,
    ) -> Result<(Vec<Placed>, KeptThinkers), Memory>
        requires { IsKeptThinkers base.now self.now }
        ensures list { IfOk result (λ own. IsKeptThinkers own.0.items own.1) }
        ensures same { IfOk result (λ own. thinkers_in own.0.items own.1 ≡ thinkers_in base.now self.now) }

        ensures tics { steps.new.tics ≡ steps.old.tics }
        ensures least { steps.old.pages ≤ steps.new.pages }
        ensures most { steps.new.pages ≤ steps.old.pages + length (thinkers_in base.now self.now) }
    {
        let alloc = *self.revived.allocator();
        let entries = self.kept.copied(base, steps)?;
        let own = KeptThinkers {
            made: self.made,
            kept: Pages::over(alloc, &entries),
            revived: Vec::from_slice(alloc, &self.revived)?,
            ended: self.ended,
        };
        Ok((entries, own))
    }

    // The next places from one on whose thinkers may be running: those before them have ended. It is empty exactly
    // where no more may be.
    pub(crate) fn stretch_from(&self, base: &[Placed], from: u32) -> Stretch
        requires list { IsKeptThinkers base.now self.now }
        requires there { from ≤ length (thinkers_in base.now self.now) }
        ensures from { from ≤ result.start }
        ensures order { result.start ≤ result.end }
        ensures there { result.end ≤ length (thinkers_in base.now self.now) }
        ensures some { result.start < length (thinkers_in base.now self.now) → result.start < result.end }
        ensures ended { (i : ℕ) → from ≤ i → i < result.start → slice_index_or (thinkers_in base.now self.now) i Ended ≡ Ended }
    {
        if !self.leaves_out() {
            return Stretch {
                start: from,
                end: self.made,
            };
        }
        let k = self.first_from(base, from);
        if k == self.kept.len() {
            return Stretch {
                start: self.made,
                end: self.made,
            };
        }
        Stretch {
            start: self.kept.get(base, k).place,
            end: self.run_end(base, k),
        }
    }

    // Whether it is known that some were left out, and none of these came back to life.
    fn leaves_out(&self) -> bool
        ensures { IsTrue result → self.now.revived.items ≡ [] }
    {
        self.revived.is_empty() && !self.is_whole()
    }

    // Leaves out the thinkers that have ended, once they are many and at least half of those that are kept. So what is
    // kept is at most twice those that run and some more, and each that ends costs a few steps. On `Memory` all is as
    // before.
    pub(crate) fn forget_ended(&mut self, base: &[Placed], steps: &mut Steps) -> Result<(), Memory>
        requires { IsKeptThinkers base.now self.old }
        ensures list { IsKeptThinkers base.now self.new }
        ensures same { thinkers_in base.now self.new ≡ thinkers_in base.now self.old }

        ensures tics { steps.new.tics ≡ steps.old.tics }
        ensures least { steps.old.pages ≤ steps.new.pages }
        ensures most { steps.new.pages ≤ steps.old.pages + 34 * length (thinkers_in base.now self.old) }
    {
        if self.ended < FEW_ENDED || (self.ended as usize) < self.kept.len() / 2 {
            return Ok(());
        }
        self.kept = self.running(base, steps)?;
        self.ended = 0;
        Ok(())
    }

    // Those of the kept that have not ended.
    fn running(&self, base: &[Placed], steps: &mut Steps) -> Result<Pages<Placed>, Memory>
        requires { IsOver base.now self.now.kept }
        ensures over { IfOk result (λ running. IsOver base.now running) }
        ensures running { IfOk result (λ running. seen base.now running ≡ filter is_running (seen base.now self.now.kept)) }

        ensures tics { steps.new.tics ≡ steps.old.tics }
        ensures least { steps.old.pages ≤ steps.new.pages }
        ensures most { steps.new.pages ≤ steps.old.pages + 34 * length (seen base.now self.now.kept) }
    {
        let mut running = Pages::over(*self.revived.allocator(), base);
        running.clear();
        for k in 0..self.kept.len() {
            push_running(&mut running, base, self.kept.get(base, k), steps)?;
        }
        Ok(running)
    }

    // Where the thinker at a place is kept. If none is left out, or none before it, it stands at its place.
    fn position(&self, base: &[Placed], place: u32) -> Option<usize>
        requires list { IsKeptThinkers base.now self.now }
        requires there { place < length (thinkers_in base.now self.now) }
        ensures { result ≡ position (stands_at place) (seen base.now self.now.kept) }
    {
        let own = place as usize;
        if self.is_whole() {
            return Some(own);
        }
        if self.stands_there(base, own, place) {
            return Some(own);
        }
        let k = self.first_from(base, place);
        if self.stands_there(base, k, place) {
            return Some(k);
        }
        None
    }

    // Whether none is left out.
    fn is_whole(&self) -> bool
        ensures { (base : List PlacedValue) → IsOver base self.now.kept → IsTrue result → length (seen base self.now.kept) ≡ self.now.made }
    {
        self.kept.len() == self.made as usize
    }

    // Whether the k-th that is kept is the one at a place.
    fn stands_there(&self, base: &[Placed], k: usize, place: u32) -> bool
        requires { IsOver base.now self.now.kept }
        ensures there { IsTrue result → (k < length (seen base.now self.now.kept)) × ((slice_index_or (seen base.now self.now.kept) k no_entry).place ≡ place) }
        ensures apart { IsFalse result → k < length (seen base.now self.now.kept) → (slice_index_or (seen base.now self.now.kept) k no_entry).place ≢ place }
    {
        k < self.kept.len() && self.kept.get(base, k).place == place
    }

    // How many of the kept stand before a place.
    fn first_from(&self, base: &[Placed], place: u32) -> usize
        requires over { IsOver base.now self.now.kept }
        requires rise { Rise (seen base.now self.now.kept) }
        ensures within { result ≤ length (seen base.now self.now.kept) }
        ensures before { (k : ℕ) → k < result → (slice_index_or (seen base.now self.now.kept) k no_entry).place < place }
        ensures after { (k : ℕ) → result ≤ k → k < length (seen base.now self.now.kept) → place ≤ (slice_index_or (seen base.now self.now.kept) k no_entry).place }
    {
        let mut low = 0;
        let mut high = self.kept.len();
        while low < high {
            let middle = between(low, high);
            if self.kept.get(base, middle).place < place {
                low = middle + 1;
            } else {
                high = middle;
            }
        }
        low
    }

    // The place behind the k-th that is kept and those that follow it without a gap.
    fn run_end(&self, base: &[Placed], k: usize) -> u32
        requires over { IsOver base.now self.now.kept }
        requires there { k < length (seen base.now self.now.kept) }
        requires below { AreMade self.now.made (seen base.now self.now.kept) }
        ensures some { (slice_index_or (seen base.now self.now.kept) k no_entry).place < result }
        ensures there { result ≤ self.now.made }
    {
        let count = self.kept.len();
        let mut end = self.kept.get(base, k).place + 1;
        for i in k + 1..count {
            if self.kept.get(base, i).place != end {
                return end;
            }
            end += 1;
        }
        end
    }
}

// Appends an entry whose thinker has not ended. On `Memory` the list is as before.
fn push_running(
    list: &mut Pages<Placed>,
    base: &[Placed],
    entry: Placed,
    steps: &mut Steps,
) -> Result<(), Memory>
    requires { IsOver base.now list.old }
    ensures over { IsOver base.now list.new }
    ensures ok { OnOk result (seen base.now list.new ≡ seen base.now list.old ++ filter is_running (entry ∷ [])) }

    ensures tics { steps.new.tics ≡ steps.old.tics }
    ensures least { steps.old.pages ≤ steps.new.pages }
    ensures most { steps.new.pages ≤ steps.old.pages + 34 }
{
    if has_ended(&entry.thinker) {
        return Ok(());
    }
    list.push(base, entry, steps)?;
    Ok(())
}

// Where the entry of a place stands in a list.
fn position_in(entries: &[Placed], place: u32) -> Option<usize>
    ensures { result ≡ position (stands_at place) entries.now }
{
    entries.iter().position(|entry| entry.place == place)
}

// A place halfway between two.
fn between(low: usize, high: usize) -> usize
    requires { low < high }
    ensures least { low ≤ result }
    ensures most { result < high }
{
    low + (high - low) / 2
}

// A count of thinkers that have ended, with one more if this one has.
fn count_with(ended: u32, thinker: &Thinker) -> u32 {
    if has_ended(thinker) {
        return ended.saturating_add(1);
    }
    ended
}

fn has_ended(thinker: &Thinker) -> bool
    ensures { result ≡ has_ended thinker.now }
{
    match thinker {
        Thinker::Ended => true,
        Thinker::Door { .. }
        | Thinker::Lift { .. }
        | Thinker::Floor { .. }
        | Thinker::Light { .. } => false,
    }
}
