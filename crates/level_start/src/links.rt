//! Which things are linked when a level starts.
ghost use Rattle.std.specs.Prelude.{◌≡◌, ◌<◌, [], length, IfOk, OnOk};
ghost use Rattle.cow_world.specs.Flat.{IsLive, parts};
ghost use Rattle.cow_world.specs.Fits.{FitsLevel, KeepsFit};
ghost use Rattle.level_start.specs.Links.{is_linked, linked_things, linked_of};

use cow_world::{NOT_LINKED, World, has_bit};
use doom_edge::Memory;
use fixed_angle::PlayTables;
use map_geometry::Level;
use std::alloc::Global;

/// Links the things of a world in their order, in which none was linked yet.
pub fn link_things(
    alloc: Global,
    level: &Level,
    tables: &PlayTables,
    world: &mut World,
) -> Result<(), Memory>
    requires fits { FitsLevel level.now world.old }
    requires first { (parts world.old).links ≡ [] }
    ensures ok { OnOk result (world.new ≡ linked_of tables.now world.old) }
    ensures fits { OnOk result (KeepsFit world.old world.new) }
{
    let things = linked_things(alloc, level, tables, world)?;
    world.link_all(level, &things)?;
    Ok(())
}

// The places of the things that are linked, in their order.
#[tactic(auto, using(crate::proofs::Linked::sought_first, crate::proofs::Linked::sought_none, crate::proofs::Linked::sought_one, crate::proofs::Linked::sought_all))]
fn linked_things(
    alloc: Global,
    level: &Level,
    tables: &PlayTables,
    world: &World,
) -> Result<Vec<u32>, Memory>
    requires fits { FitsLevel level.now world.now }
    ensures linked { IfOk result (λ things. things.items ≡ linked_things tables.now world.now) }
{
    let mut things = Vec::new(alloc);
    for i in 0..world.thing_count() {
        if is_linked(level, tables, world, i) {
            things.push(i)?;
        }
    }
    Ok(things)
}

// Whether a thing is to be linked: its kind is, and its place lies in the grid.
fn is_linked(level: &Level, tables: &PlayTables, world: &World, i: u32) -> bool
    requires fits { FitsLevel level.now world.now }
    requires there { i < length (parts world.now).things }
    ensures { result ≡ is_linked tables.now world.now i }
{
    let thing = world.thing(i);
    let block = level.cell_at(level.column_of(thing.x), level.row_of(thing.y));
    !has_bit(world.shape(tables, i).flags, NOT_LINKED) && block.is_some()
}
