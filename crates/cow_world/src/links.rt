//! The order in which things were linked, by blocks.
ghost use Rattle.std.specs.Prelude.{◌≡◌, ◌+◌, ◌*◌, ◌<◌, ◌≤◌, ◌++◌, [], length, filter, All, AllPairs, IfOk, OnOk, OnErr};
ghost use Rattle.link_order.specs.Links.{block_things, IsWithin};
ghost use Rattle.cow_world.specs.Spawned.{link_all, latest, entry_at};
ghost use Rattle.cow_world.specs.Flat.{IsLive, parts, grid_of, link, no_thing};
ghost use Rattle.cow_world.specs.Places.{linked_in, is_present};
ghost use Rattle.cow_world.specs.Fits.{KeepsFit};

use crate::grid::cell_under;
use crate::lists::Lists;
use crate::records::Thing;
use crate::world::World;
use doom_edge::{Memory, Steps};
use link_order::{LinkOrder, Linked, Things};
use map_geometry::Level;
use std::alloc::Global;

impl World {
    /// Moves a thing to (x, y) and links it anew: it then stands first in the link order, once. A place outside the
    /// grid is in no block.
    pub fn link(
        &mut self,
        level: &Level,
        thing: u32,
        x: i32,
        y: i32,
        steps: &mut Steps,
    ) -> Result<(), Memory>
        requires live { IsLive self.old }
        requires there { thing < length (parts self.old).things }
        requires grid { self.old.grid ≡ grid_of level.now }
        ensures ok { OnOk result (self.new ≡ link self.old thing x y) }
        ensures err { OnErr result (self.new ≡ self.old) }

        ensures fits { OnOk result (KeepsFit self.old self.new) }

        ensures tics { steps.new.tics ≡ steps.old.tics }
        ensures least { steps.old.pages ≤ steps.new.pages }
        ensures most { steps.new.pages ≤ steps.old.pages + 34 }
    {
        let block = cell_under(level, x, y);
        let alloc = *self.acted.allocator();
        self.order.make_room(alloc)?;
        let moved = moved_to(self.lists.thing(thing as usize), x, y);
        self.lists.set_thing(thing as usize, moved, steps)?;
        self.order.link(thing, block);
        Ok(())
    }

    /// Links things where they stand, one after the other, in a world in which nothing was linked yet. It takes about
    /// the time of the things and the blocks. On `Memory` the world is as before.
    pub fn link_all(&mut self, level: &Level, things: &[u32]) -> Result<(), Memory>
        requires live { IsLive self.old }
        requires grid { self.old.grid ≡ grid_of level.now }
        requires there { All (λ thing. thing < length (parts self.old).things) things.now }
        requires rising { AllPairs (λ one other. one < other) things.now }
        requires first { (parts self.old).links ≡ [] }
        ensures ok { OnOk result (self.new ≡ link_all self.old things.now) }
        ensures err { OnErr result (self.new ≡ self.old) }

        ensures fits { OnOk result (KeepsFit self.old self.new) }
    {
        let alloc = *self.acted.allocator();
        let entries = entries_of(alloc, level, &self.lists, things)?;
        self.order = LinkOrder::of(alloc, entries, level.width() * level.height())?;
        Ok(())
    }

    /// Puts the things of a block that were linked and are present in place of what was in `out`, the last linked
    /// first. A block outside the grid has none. After `Memory` nothing is said of `out`.
    pub fn linked_in(
        &self,
        level: &Level,
        column: i32,
        row: i32,
        out: &mut Vec<u32>,
    ) -> Result<(), Memory>
        requires live { IsLive self.now }
        requires grid { self.now.grid ≡ grid_of level.now }
        ensures things { OnOk result (out.new.items ≡ linked_in self.now column row) }
        ensures there { OnOk result (All (λ thing. thing < length (parts self.now).things) out.new.items) }
    {
        let mut things = Things::new(*out.allocator());
        self.push_linked(level, column, row, &mut things)?;
        out.clear();
        out.extend_from_slice(&things)?;
        Ok(())
    }

    // Appends the things of a block that were linked and are present, the last linked first.
    pub(crate) fn push_linked(
        &self,
        level: &Level,
        column: i32,
        row: i32,
        out: &mut Things,
    ) -> Result<(), Memory>
        requires live { IsLive self.now }
        requires grid { self.now.grid ≡ grid_of level.now }
        ensures things { OnOk result (out.new.items ≡ out.old.items ++ linked_in self.now column row) }
        ensures there { OnOk result (All (λ thing. thing < length (parts self.now).things) (linked_in self.now column row)) }
    {
        let Some(block) = level.cell_at(column, row) else {
            return Ok(());
        };
        push_block(&self.order, &self.lists, block, out)?;
        Ok(())
    }
}

// The thing at another place.
fn moved_to(thing: Thing, x: i32, y: i32) -> Thing
    ensures { result ≡ record thing { x = x; y = y } }
{
    Thing { x, y, ..thing }
}

// The entry of a thing in the block where it stands.
fn entry_at(level: &Level, lists: &Lists, thing: u32) -> Linked
    requires { thing < length lists.now.things }
    ensures entry { result ≡ entry_at lists.now.things (grid_of level.now) thing }
    ensures within { IsWithin (level.now.width * level.now.height) result }
{
    let there = lists.thing(thing as usize);
    Linked {
        thing,
        block: cell_under(level, there.x, there.y),
    }
}

// The entries of things, the last first.
fn entries_of(
    alloc: Global,
    level: &Level,
    lists: &Lists,
    linked: &[u32],
) -> Result<Vec<Linked>, Memory>
    requires { All (λ thing. thing < length lists.now.things) linked.now }
    ensures entries { IfOk result (λ entries. entries.items ≡ latest (entry_at lists.now.things (grid_of level.now)) linked.now) }
    ensures within { IfOk result (λ entries. All (IsWithin (level.now.width * level.now.height)) entries.items) }
{
    let mut entries = Vec::with_capacity(alloc, linked.len())?;
    for i in (0..linked.len()).rev() {
        entries.push(entry_at(level, lists, linked[i]))?;
    }
    Ok(entries)
}

// Appends the present things of the block with a number.
fn push_block(order: &LinkOrder, lists: &Lists, block: u32, out: &mut Things) -> Result<(), Memory>
    ensures { OnOk result (out.new.items ≡ out.old.items ++ filter (is_present lists.now.things) (block_things block order.now.order)) }
{
    let mut linked = Things::new(*out.allocator());
    order.in_block(block, &mut linked)?;
    push_present(lists, &linked, out)?;
    Ok(())
}

// Appends those things that are present.
fn push_present(lists: &Lists, linked: &[u32], out: &mut Things) -> Result<(), Memory>
    ensures { OnOk result (out.new.items ≡ out.old.items ++ filter (is_present lists.now.things) linked.now) }
{
    for thing in linked {
        if is_present(lists, *thing) {
            out.push(*thing)?;
        }
    }
    Ok(())
}

fn is_present(lists: &Lists, thing: u32) -> bool
    ensures { result ≡ is_present lists.now.things thing }
{
    (thing as usize) < lists.thing_count() && lists.thing(thing as usize).present
}
