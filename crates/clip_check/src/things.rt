//! The things that a thing meets at a place.
ghost use Rattle.std.specs.Prelude.{◌≡◌, ◌<◌, ◌≤◌, ◌&&◌, length, All, IfOk, OnOk};
ghost use Rattle.map_geometry.specs.Sides.{plus};
ghost use Rattle.cow_world.specs.Flat.{IsLive, parts};
ghost use Rattle.cow_world.specs.Fits.{Fits};
ghost use Rattle.clip_check.specs.Aside.{TouchesOnly};
ghost use Rattle.clip_check.specs.Things.{box_of, is_body, is_near, is_met, touched_if, met_one, things_met, things_around};

use crate::touch::touch;
use crate::trial::Trial;
use cow_world::{Shape, Thing, Things, World};
use doom_edge::{Memory, Steps};
use fixed_angle::PlayTables;
use map_geometry::{Area, Level, blocks_of, box_around, difference, sum, widened};
use std::alloc::Global;

/// Meets the things around the place of a trial, block by block and in a block the last linked first, up to the first
/// that blocks; the player touches those that are special. Whether one blocks. Where no more than 16 things stand in
/// the blocks around and none is taken, it takes no memory.
pub fn meet_things(
    alloc: Global,
    level: &Level,
    tables: &PlayTables,
    world: &mut World,
    trial: &Trial,
    steps: &mut Steps,
) -> Result<bool, Memory>
    requires fits { Fits level.now tables.now world.old }
    ensures met { IfOk result (λ blocks. (world.new, blocks) ≡ things_met level.now tables.now world.old trial.now (things_around level.now world.old trial.now)) }
    ensures fits { OnOk result (Fits level.now tables.now world.new) }
    ensures aside { OnOk result (TouchesOnly world.old world.new) }

    ensures tics { steps.new.tics ≡ steps.old.tics }
    ensures pages { steps.old.pages ≤ steps.new.pages }
{
    let mut near = Things::new(alloc);
    let area = widened(&box_of(trial));
    world.things_in(level, &blocks_of(level, &area), &mut near)?;
    meet_each(level, tables, world, trial, &near, steps)
}

/// The square of a trial.
pub fn box_of(trial: &Trial) -> Area
    ensures { result ≡ box_of trial.now }
{
    box_around(trial.x, trial.y, trial.radius)
}

// Meets these things, one after the other, up to the first that blocks.
fn meet_each(
    level: &Level,
    tables: &PlayTables,
    world: &mut World,
    trial: &Trial,
    near: &[u32],
    steps: &mut Steps,
) -> Result<bool, Memory>
    requires fits { Fits level.now tables.now world.old }
    requires there { All (λ thing. thing < length (parts world.old).things) near.now }
    ensures met { IfOk result (λ blocks. (world.new, blocks) ≡ things_met level.now tables.now world.old trial.now near.now) }
    ensures fits { OnOk result (Fits level.now tables.now world.new) }
    ensures aside { OnOk result (TouchesOnly world.old world.new) }

    ensures tics { steps.new.tics ≡ steps.old.tics }
    ensures pages { steps.old.pages ≤ steps.new.pages }
{
    for other in near {
        if meet(level, tables, world, trial, *other, steps)? {
            return Ok(true);
        }
    }
    Ok(false)
}

// Meets one thing, or passes it. Whether it blocks.
fn meet(
    level: &Level,
    tables: &PlayTables,
    world: &mut World,
    trial: &Trial,
    other: u32,
    steps: &mut Steps,
) -> Result<bool, Memory>
    requires fits { Fits level.now tables.now world.old }
    requires there { other < length (parts world.old).things }
    ensures met { IfOk result (λ blocks. (world.new, blocks) ≡ met_one level.now tables.now world.old trial.now other) }
    ensures fits { OnOk result (Fits level.now tables.now world.new) }
    ensures aside { OnOk result (TouchesOnly world.old world.new) }

    ensures tics { steps.new.tics ≡ steps.old.tics }
    ensures pages { steps.old.pages ≤ steps.new.pages }
{
    if !is_met(tables, world, trial, other) {
        return Ok(false);
    }
    let shape = world.shape(tables, other);
    touch_if(
        trial.player && shape.is_special(),
        level,
        tables,
        world,
        other,
        steps,
    )?;
    Ok(shape.is_solid())
}

// Touches a thing, or doesn't.
#[tactic(auto, using(crate::proofs::Asides::aside_same))]
fn touch_if(
    touched: bool,
    level: &Level,
    tables: &PlayTables,
    world: &mut World,
    other: u32,
    steps: &mut Steps,
) -> Result<(), Memory>
    requires fits { Fits level.now tables.now world.old }
    requires there { other < length (parts world.old).things }
    ensures ok { OnOk result (world.new ≡ touched_if touched level.now world.old other) }
    ensures fits { OnOk result (Fits level.now tables.now world.new) }
    ensures aside { OnOk result (TouchesOnly world.old world.new) }

    ensures tics { steps.new.tics ≡ steps.old.tics }
    ensures pages { steps.old.pages ≤ steps.new.pages }
{
    // The tables are there for the contract alone.
    let _tables = tables;
    if !touched {
        return Ok(());
    }
    touch(level, world, other, steps)
}

// Whether the thing on trial meets another one.
fn is_met(tables: &PlayTables, world: &World, trial: &Trial, other: u32) -> bool
    requires live { IsLive world.now }
    requires there { other < length (parts world.now).things }
    ensures { result ≡ is_met tables.now world.now trial.now other }
{
    if other == trial.thing {
        return false;
    }
    let shape = world.shape(tables, other);
    is_body(&shape) && is_beside(&world.thing(other), &shape, trial)
}

// Whether a thing is anything that is met.
fn is_body(shape: &Shape) -> bool
    ensures { result ≡ is_body shape.now }
{
    shape.is_special() || shape.is_solid() || shape.is_shootable()
}

// Whether a thing is nearer than the sum of the radii in both directions.
fn is_beside(thing: &Thing, shape: &Shape, trial: &Trial) -> bool
    ensures { result ≡ (is_near thing.now.x trial.now.x (plus shape.now.radius trial.now.radius) && is_near thing.now.y trial.now.y (plus shape.now.radius trial.now.radius)) }
{
    let reach = sum(shape.radius, trial.radius);
    is_near(thing.x, trial.x, reach) && is_near(thing.y, trial.y, reach)
}

// Whether two coordinates are less than a reach apart.
fn is_near(from: i32, to: i32, reach: i32) -> bool
    ensures { result ≡ is_near from to reach }
{
    i64::from(difference(from, to).unsigned_abs()) < i64::from(reach)
}
