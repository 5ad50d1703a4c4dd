//! A level starts.
ghost use Rattle.std.specs.Prelude.{◌≡◌, ◌+◌, ◌<◌, ◌≤◌, [], false, None, length, IfOk, OnOk, IfErr};
ghost use Rattle.cow_world.specs.Flat.{parts, opening};
ghost use Rattle.cow_world.specs.Fits.{Fits};
ghost use Rattle.level_start.specs.Start.{skill_of, stands_before, fault_at, spawned_at, spawned_of, first_fault, start_fault, begun_of, start_of, Blames};
ghost use Rattle.level_start.specs.Begun.{IsBegun};

use crate::entries::{Entry, entry_at};
use crate::fault::StartFault;
use crate::links::link_things;
use crate::spawns::{spawn_player, spawn_thing};
use cow_world::World;
use doom_edge::Steps;
use fixed_angle::PlayTables;
use light_fx::spawn_lights;
use lmp_codec::Header;
use map_geometry::Level;
use std::alloc::Global;

/// The world of a level before its first tic, at the skill of a demo's header.
///
/// The things of the map come one after the other. Each that is meant for the skill and for a single player is spawned,
/// with one random number, and one more where its first state ticks; monsters are left out. The first player's start
/// becomes the player. The things are then linked in their order, those of kinds that no block lists and those outside
/// the grid left out, and last come the lights and doors of the sectors. The world has pages of its own.
///
/// # Errors
///
/// See [`StartFault`]: the first in the order of the things, and `NoStart` after all of them.
#[tactic(auto, unfolding(crate::specs::Start::start_of, crate::specs::Start::start_fault))]
pub fn start(
    alloc: Global,
    level: &Level,
    tables: &PlayTables,
    header: &Header,
) -> Result<World, StartFault>
    ensures start { IfOk result (λ world. world ≡ start_of level.now tables.now header.now) }
    ensures sound { OnOk result (start_fault level.now tables.now header.now ≡ None) }
    ensures fault { IfErr result (Blames (start_fault level.now tables.now header.now)) }
    ensures fits { IfOk result (Fits level.now tables.now) }
{
    let mut world = World::opening(alloc, level)?;
    begin(alloc, level, tables, header.skill(), &mut world)?;
    Ok(world)
}

// Starts a level in its opening, the world in which nothing stands yet.
fn begin(
    alloc: Global,
    level: &Level,
    tables: &PlayTables,
    skill: u8,
    world: &mut World,
) -> Result<(), StartFault>
    requires begun { IsBegun false level.now tables.now world.old }
    requires opening { world.old ≡ opening level.now }
    ensures ok { OnOk result (world.new ≡ begun_of level.now tables.now skill) }
    ensures sound { OnOk result (first_fault level.now tables.now skill ≡ None) }
    ensures fault { IfErr result (Blames (first_fault level.now tables.now skill)) }
    ensures fits { OnOk result (Fits level.now tables.now world.new) }
{
    let mut steps = Steps::new();
    spawn_things(level, tables, skill, world, &mut steps)?;
    link_things(alloc, level, tables, world)?;
    spawn_lights(level, tables, world, &mut steps)?;
    world.own_pages(&mut steps)?;
    Ok(())
}

// Spawns the things of the map, one after the other.
#[tactic(auto, using(crate::proofs::Entered::entered_first, crate::proofs::Entered::entered_all, crate::proofs::Entered::entered_missing))]
fn spawn_things(
    level: &Level,
    tables: &PlayTables,
    skill: u8,
    world: &mut World,
    steps: &mut Steps,
) -> Result<(), StartFault>
    requires begun { IsBegun false level.now tables.now world.old }
    requires opening { world.old ≡ opening level.now }
    ensures ok { OnOk result (world.new ≡ spawned_of level.now tables.now skill) }
    ensures sound { OnOk result (first_fault level.now tables.now skill ≡ None) }
    ensures fault { IfErr result (Blames (first_fault level.now tables.now skill)) }
    ensures fits { OnOk result (Fits level.now tables.now world.new) }
    ensures unlinked { OnOk result ((parts world.new).links ≡ []) }
{
    let count = level.thing_count();
    if count > u32::MAX as usize {
        return Err(StartFault::Memory);
    }
    let mut stood = false;
    for i in 0..count {
        stood = spawn_entry(level, tables, skill, stood, i as u32, world, steps)?;
    }
    if !stood {
        return Err(StartFault::NoStart);
    }
    Ok(())
}

// Spawns what the thing at a place of the map comes to. The answer says whether the player stands.
fn spawn_entry(
    level: &Level,
    tables: &PlayTables,
    skill: u8,
    stood: bool,
    i: u32,
    world: &mut World,
    steps: &mut Steps,
) -> Result<bool, StartFault>
    requires there { i < length level.now.things }
    requires begun { IsBegun stood level.now tables.now world.old }
    requires stood { stood ≡ stands_before level.now tables.now skill i }
    ensures ok { OnOk result (world.new ≡ spawned_at level.now tables.now skill world.old i) }
    ensures stood { IfOk result (λ stands. stands ≡ stands_before level.now tables.now skill (i + 1)) }
    ensures sound { OnOk result (fault_at level.now tables.now skill i ≡ None) }
    ensures fault { IfErr result (Blames (fault_at level.now tables.now skill i)) }
    ensures begun { IfOk result (λ stands. IsBegun stands level.now tables.now world.new) }
{
    match entry_at(level, tables, skill, i) {
        Entry::Skipped => Ok(stood),
        Entry::Player if stood => Err(StartFault::Voodoo),
        Entry::Player => {
            spawn_player(level, tables, skill, &level.thing(i as usize), world, steps)?;
            Ok(true)
        }
        Entry::Spawned(kind) => {
            spawn_thing(level, tables, &level.thing(i as usize), &kind, world, steps)?;
            Ok(stood)
        }
        Entry::Faulty(fault) => Err(fault),
    }
}
