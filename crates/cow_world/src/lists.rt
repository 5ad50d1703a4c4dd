//! The lists of a world, over bases that stand together.
ghost use Rattle.std.specs.Prelude.{◌≡◌, ℕ, ◌+◌, ◌*◌, ◌<◌, ◌≤◌, ◌^◌, [], ◌∷◌, ◌++◌, Some, length, slice_get, slice_index_or, slice_set, OnOk, OnErr, IfOk};
ghost use Rattle.cow_world.specs.Beside.{IsBeside};
ghost use Rattle.cow_world.specs.declared.records.Thinker.TheVariants.{Ended};
ghost use Rattle.cow_world.specs.KeptThinkers.{IsKeptThinkers};
ghost use Rattle.cow_world.specs.Listed.{lists_of, no_lists, pages_of, items_in};

use crate::kept_thinkers::{KeptThinkers, Placed, Stretch};
use crate::records::{Sector, Thing, Thinker};
use doom_edge::{Memory, Steps};
use page_store::Pages;
use std::alloc::Global;
use std::marker::Model;
use std::sync::Arc;

// The place of no thing: a list has fewer.
const NO_PLACE: u32 = u32::MAX;

// What lists were made of. It is never changed.
#[derive(Drop)]
pub(crate) struct Bases {
    sectors: Vec<Sector>,
    specials: Vec<u16>,
    things: Vec<Thing>,
    thinkers: Vec<Placed>,
}

// The sectors, the line specials, the things and the thinkers of a world. One `Arc` holds all that they were made of,
// so that a fork raises one count of owners, and beside it each list has what was written of it since.
//
// One thing stands beside the others, the player's, which is written in nearly every tic; what the pages have at its
// place is out of date. So a tic in which the player alone moves writes no page.
#[derive(Drop)]
pub(crate) struct Lists {
    bases: Arc<Bases>,
    sectors: Pages<Sector>,
    specials: Pages<u16>,
    things: Pages<Thing>,
    thinkers: KeptThinkers,
    place: u32,
    own: Thing,
}

impl Model for Lists {
    ghost use Rattle.cow_world.specs.Listed.{Listed, listed_in, IsListed};

    ghost Value = { Listed };

    ghost view = { listed_in };

    ghost invariant = { IsListed };
}

// An entry of zeros.
const NO_THING: Thing = Thing {
    kind: 0,
    x: 0,
    y: 0,
    z: 0,
    floorz: 0,
    ceilingz: 0,
    angle: 0,
    present: false,
};

impl Lists {
    // The lists that these are, of which there are no things and no thinkers yet.
    pub(crate) fn new(
        alloc: Global,
        sectors: Vec<Sector>,
        specials: Vec<u16>,
    ) -> Result<Lists, Memory>
        ensures { IfOk result (λ lists. lists ≡ record no_lists { sectors = sectors.items; specials = specials.items }) }
    {
        let bases = Bases {
            sectors,
            specials,
            things: Vec::new(alloc),
            thinkers: Vec::new(alloc),
        };
        Lists::of(alloc, bases, KeptThinkers::none(alloc), NO_PLACE)
    }

    // The lists that these bases are, and thinkers over theirs, with the thing at a place beside the others, if there
    // is one.
    fn of(alloc: Global, bases: Bases, thinkers: KeptThinkers, place: u32) -> Result<Lists, Memory>
        requires few { length bases.things.items < 2 ^ 32 }
        requires thinkers { IsKeptThinkers bases.thinkers.items thinkers }
        ensures { IfOk result (λ lists. lists ≡ lists_of bases thinkers) }
    {
        let (place, own) = beside(&bases.things, place);
        Ok(Lists {
            sectors: Pages::over(alloc, &bases.sectors),
            specials: Pages::over(alloc, &bases.specials),
            things: Pages::over(alloc, &bases.things),
            thinkers,
            bases: Arc::new(alloc, bases)?,
            place,
            own,
        })
    }

    // Lets all items go. It takes no memory.
    pub(crate) fn clear(&mut self)
        ensures { self.new ≡ no_lists }
    {
        self.sectors.clear();
        self.specials.clear();
        self.things.clear();
        self.thinkers.clear();
        self.place = NO_PLACE;
    }

    // Second lists with the same items. A later write to either leaves the other.
    pub(crate) fn fork(&mut self, steps: &mut Steps) -> Result<Lists, Memory>
        ensures same { IfOk result (λ forked. forked ≡ self.old) }
        ensures kept { self.new ≡ self.old }

        ensures tics { steps.new.tics ≡ steps.old.tics }
        ensures least { steps.old.pages ≤ steps.new.pages }
        ensures most { steps.new.pages ≤ steps.old.pages + 2 * pages_of self.old }
    {
        let bases = Arc::try_clone(&self.bases)?;
        let sectors = self.sectors.fork(&self.bases.sectors, steps)?;
        let specials = self.specials.fork(&self.bases.specials, steps)?;
        let things = self.things.fork(&self.bases.things, steps)?;
        let thinkers = self.thinkers.fork(&self.bases.thinkers, steps)?;
        Ok(Lists {
            bases,
            sectors,
            specials,
            things,
            thinkers,
            place: self.place,
            own: self.own,
        })
    }

    // Gives the lists bases of their own, which no others name, and puts the thing at a place beside the others, if
    // there is one. On `Memory` all is as before.
    pub(crate) fn own_pages(
        &mut self,
        alloc: Global,
        place: u32,
        steps: &mut Steps,
    ) -> Result<(), Memory>
        ensures kept { self.new ≡ self.old }

        ensures tics { steps.new.tics ≡ steps.old.tics }
        ensures least { steps.old.pages ≤ steps.new.pages }
        ensures most { steps.new.pages ≤ steps.old.pages + items_in self.old }
    {
        let (bases, thinkers) = self.copied(steps)?;
        *self = Lists::of(alloc, bases, thinkers, place)?;
        Ok(())
    }

    // All items, each copied by one step, and the thinkers over them.
    fn copied(&self, steps: &mut Steps) -> Result<(Bases, KeptThinkers), Memory>
        ensures same { IfOk result (λ own. lists_of own.0 own.1 ≡ self.now) }
        ensures few { IfOk result (λ own. length own.0.things.items < 2 ^ 32) }
        ensures thinkers { IfOk result (λ own. IsKeptThinkers own.0.thinkers.items own.1) }
        ensures tics { steps.new.tics ≡ steps.old.tics }
        ensures least { steps.old.pages ≤ steps.new.pages }
        ensures most { steps.new.pages ≤ steps.old.pages + items_in self.now }
    {
        let sectors = self.sectors.copied(&self.bases.sectors, steps)?;
        let specials = self.specials.copied(&self.bases.specials, steps)?;
        let mut things = self.things.copied(&self.bases.things, steps)?;
        let (entries, thinkers) = self.thinkers.own(&self.bases.thinkers, steps)?;
        put_back(&mut things, self.place, self.own);
        let bases = Bases {
            sectors,
            specials,
            things,
            thinkers: entries,
        };
        Ok((bases, thinkers))
    }

    pub(crate) fn sector_count(&self) -> usize
        ensures { result ≡ length self.now.sectors }
    {
        self.sectors.len()
    }

    pub(crate) fn sector(&self, i: usize) -> Sector
        requires { i < length self.now.sectors }
        ensures { slice_get self.now.sectors i ≡ Some result }
    {
        self.sectors.get(&self.bases.sectors, i)
    }

    pub(crate) fn set_sector(
        &mut self,
        i: usize,
        to: Sector,
        steps: &mut Steps,
    ) -> Result<(), Memory>
        requires { i < length self.old.sectors }
        ensures ok { OnOk result (self.new ≡ record self.old { sectors = slice_set self.old.sectors i to }) }
        ensures err { OnErr result (self.new ≡ self.old) }

        ensures tics { steps.new.tics ≡ steps.old.tics }
        ensures least { steps.old.pages ≤ steps.new.pages }
        ensures most { steps.new.pages ≤ steps.old.pages + 34 }
    {
        self.sectors.set(&self.bases.sectors, i, to, steps)
    }

    pub(crate) fn special(&self, i: usize) -> u16
        requires { i < length self.now.specials }
        ensures { slice_get self.now.specials i ≡ Some result }
    {
        self.specials.get(&self.bases.specials, i)
    }

    pub(crate) fn set_special(&mut self, i: usize, to: u16, steps: &mut Steps) -> Result<(), Memory>
        requires { i < length self.old.specials }
        ensures ok { OnOk result (self.new ≡ record self.old { specials = slice_set self.old.specials i to }) }
        ensures err { OnErr result (self.new ≡ self.old) }

        ensures tics { steps.new.tics ≡ steps.old.tics }
        ensures least { steps.old.pages ≤ steps.new.pages }
        ensures most { steps.new.pages ≤ steps.old.pages + 34 }
    {
        self.specials.set(&self.bases.specials, i, to, steps)
    }

    pub(crate) fn thing_count(&self) -> usize
        ensures { result ≡ length self.now.things }
    {
        self.things.len()
    }

    pub(crate) fn thing(&self, i: usize) -> Thing
        requires { i < length self.now.things }
        ensures { slice_get self.now.things i ≡ Some result }
    {
        if i == self.place as usize {
            return self.own;
        }
        self.things.get(&self.bases.things, i)
    }

    // Writes a thing. The one beside the pages takes no memory and no step.
    pub(crate) fn set_thing(&mut self, i: usize, to: Thing, steps: &mut Steps) -> Result<(), Memory>
        requires { i < length self.old.things }
        ensures ok { OnOk result (self.new ≡ record self.old { things = slice_set self.old.things i to }) }
        ensures err { OnErr result (self.new ≡ self.old) }

        ensures tics { steps.new.tics ≡ steps.old.tics }
        ensures least { steps.old.pages ≤ steps.new.pages }
        ensures most { steps.new.pages ≤ steps.old.pages + 34 }
    {
        if i == self.place as usize {
            self.own = to;
            return Ok(());
        }
        self.things.set(&self.bases.things, i, to, steps)?;
        Ok(())
    }

    pub(crate) fn push_thing(&mut self, thing: Thing, steps: &mut Steps) -> Result<(), Memory>
        requires { length self.old.things + 1 < 2 ^ 32 }
        ensures ok { OnOk result (self.new ≡ record self.old { things = self.old.things ++ thing ∷ [] }) }
        ensures err { OnErr result (self.new ≡ self.old) }

        ensures tics { steps.new.tics ≡ steps.old.tics }
        ensures least { steps.old.pages ≤ steps.new.pages }
        ensures most { steps.new.pages ≤ steps.old.pages + 34 }
    {
        self.things.push(&self.bases.things, thing, steps)?;
        Ok(())
    }

    pub(crate) fn thinker_count(&self) -> u32
        ensures { result ≡ length self.now.thinkers }
    {
        self.thinkers.len()
    }

    pub(crate) fn thinker(&self, place: u32) -> Thinker
        requires { place < length self.now.thinkers }
        ensures { slice_get self.now.thinkers place ≡ Some result }
    {
        self.thinkers.get(&self.bases.thinkers, place)
    }

    pub(crate) fn set_thinker(
        &mut self,
        place: u32,
        to: Thinker,
        steps: &mut Steps,
    ) -> Result<(), Memory>
        requires { place < length self.old.thinkers }
        ensures ok { OnOk result (self.new ≡ record self.old { thinkers = slice_set self.old.thinkers place to }) }
        ensures err { OnErr result (self.new ≡ self.old) }

        ensures tics { steps.new.tics ≡ steps.old.tics }
        ensures least { steps.old.pages ≤ steps.new.pages }
        ensures most { steps.new.pages ≤ steps.old.pages + 34 }
    {
        self.thinkers.set(&self.bases.thinkers, place, to, steps)
    }

    pub(crate) fn push_thinker(&mut self, thinker: Thinker, steps: &mut Steps) -> Result<(), Memory>
        requires { length self.old.thinkers + 1 < 2 ^ 32 }
        ensures ok { OnOk result (self.new ≡ record self.old { thinkers = self.old.thinkers ++ thinker ∷ [] }) }
        ensures err { OnErr result (self.new ≡ self.old) }

        ensures tics { steps.new.tics ≡ steps.old.tics }
        ensures least { steps.old.pages ≤ steps.new.pages }
        ensures most { steps.new.pages ≤ steps.old.pages + 34 }
    {
        self.thinkers.push(&self.bases.thinkers, thinker, steps)
    }

    // The next places from one on whose thinkers may be running: those before them have ended.
    pub(crate) fn stretch_from(&self, from: u32) -> Stretch
        requires { from ≤ length self.now.thinkers }
        ensures from { from ≤ result.start }
        ensures order { result.start ≤ result.end }
        ensures there { result.end ≤ length self.now.thinkers }
        ensures some { result.start < length self.now.thinkers → result.start < result.end }
        ensures ended { (i : ℕ) → from ≤ i → i < result.start → slice_index_or self.now.thinkers i Ended ≡ Ended }
    {
        self.thinkers.stretch_from(&self.bases.thinkers, from)
    }

    // Leaves out the thinkers that have ended, once they are many. On `Memory` all is as before.
    pub(crate) fn forget_ended(&mut self, steps: &mut Steps) -> Result<(), Memory>
        ensures kept { self.new ≡ self.old }

        ensures tics { steps.new.tics ≡ steps.old.tics }
        ensures least { steps.old.pages ≤ steps.new.pages }
        ensures most { steps.new.pages ≤ steps.old.pages + 34 * length self.old.thinkers }
    {
        self.thinkers.forget_ended(&self.bases.thinkers, steps)
    }
}

// The place of a thing and the thing, where it is there; else that of none.
fn beside(things: &[Thing], place: u32) -> (u32, Thing)
    requires { length things.now < 2 ^ 32 }
    ensures same { slice_set things.now result.0 result.1 ≡ things.now }
    ensures beside { IsBeside things.now result.0 }
{
    if (place as usize) < things.len() {
        return (place, things[place as usize]);
    }
    (NO_PLACE, NO_THING)
}

// Writes the thing that stood beside the others to its place, if it has one.
fn put_back(things: &mut [Thing], place: u32, own: Thing)
    ensures { things.new ≡ slice_set things.old place own }
{
    if (place as usize) < things.len() {
        things[place as usize] = own;
    }
}
