//! All thinkers in a tic.
ghost use Rattle.std.specs.Prelude.{◌≡◌, ◌<◌, ◌≤◌, length, OnOk};
ghost use Rattle.cow_world.specs.Flat.{parts};
ghost use Rattle.cow_world.specs.Fits.{Fits};
ghost use Rattle.cow_world.specs.Outcome.{Moves, each_from};
ghost use Rattle.cow_world.specs.Stretches.{places};
ghost use Rattle.light_fx.specs.Lights.{run_light_of};
ghost use Rattle.mover_run.specs.Runs.{run_thinker_of, run_thinkers_of};

use crate::doors::{MovingDoor, run_door};
use crate::floors::{MovingFloor, run_floor};
use crate::lifts::{MovingLift, run_lift};
use cow_world::{PlayFault, Stretch, Thinker, World};
use doom_edge::{Memory, Steps};
use fixed_angle::PlayTables;
use light_fx::run_light;
use map_geometry::Level;
use std::alloc::Global;

/// One tic of all thinkers, doors, lifts, floors and lights, in the order of their making. It halts (`Unset`) where a
/// door goes up to a top, or a lift needs a lower end, that was never set. After a halt or want of memory nothing is
/// said of the world. At the end the world lets go of those that have ended, if they are many.
pub fn run_thinkers(
    alloc: Global,
    level: &Level,
    tables: &PlayTables,
    world: &mut World,
    steps: &mut Steps,
) -> Result<(), PlayFault>
    requires fits { Fits level.now tables.now world.old }
    ensures moves { Moves result world.new (run_thinkers_of level.now tables.now world.old) }
    ensures fits { OnOk result (Fits level.now tables.now world.new) }

    ensures tics { steps.new.tics ≡ steps.old.tics }
    ensures pages { steps.old.pages ≤ steps.new.pages }
{
    run_all(alloc, level, tables, world, steps)?;
    world.forget_ended(steps)?;
    Ok(())
}

// One tic of all thinkers, from one stretch of those that run to the next.
fn run_all(
    alloc: Global,
    level: &Level,
    tables: &PlayTables,
    world: &mut World,
    steps: &mut Steps,
) -> Result<(), PlayFault>
    requires fits { Fits level.now tables.now world.old }
    ensures moves { Moves result world.new (run_thinkers_of level.now tables.now world.old) }
    ensures fits { OnOk result (Fits level.now tables.now world.new) }

    ensures tics { steps.new.tics ≡ steps.old.tics }
    ensures pages { steps.old.pages ≤ steps.new.pages }
{
    let all = world.thinker_count();
    let mut from = 0;
    while from < all {
        let live = world.stretch_from(from);
        run_stretch(alloc, level, tables, world, &live, steps)?;
        from = live.end;
    }
    Ok(())
}

// One tic of the thinkers at the places of a stretch.
fn run_stretch(
    alloc: Global,
    level: &Level,
    tables: &PlayTables,
    world: &mut World,
    stretch: &Stretch,
    steps: &mut Steps,
) -> Result<(), PlayFault>
    requires fits { Fits level.now tables.now world.old }
    requires there { stretch.now.end ≤ length (parts world.old).thinkers }
    ensures moves { Moves result world.new (each_from (run_thinker_of level.now tables.now) world.old (places stretch.now)) }
    ensures fits { OnOk result (Fits level.now tables.now world.new) }
    ensures many { OnOk result (length (parts world.new).thinkers ≡ length (parts world.old).thinkers) }

    ensures tics { steps.new.tics ≡ steps.old.tics }
    ensures pages { steps.old.pages ≤ steps.new.pages }
{
    for i in stretch.start..stretch.end {
        run_thinker(alloc, level, tables, world, i, steps)?;
    }
    Ok(())
}

// One tic of the thinker at a place.
fn run_thinker(
    alloc: Global,
    level: &Level,
    tables: &PlayTables,
    world: &mut World,
    i: u32,
    steps: &mut Steps,
) -> Result<(), PlayFault>
    requires fits { Fits level.now tables.now world.old }
    requires there { i < length (parts world.old).thinkers }
    ensures moves { Moves result world.new (run_thinker_of level.now tables.now i world.old) }
    ensures fits { OnOk result (Fits level.now tables.now world.new) }
    ensures many { OnOk result (length (parts world.new).thinkers ≡ length (parts world.old).thinkers) }

    ensures tics { steps.new.tics ≡ steps.old.tics }
    ensures pages { steps.old.pages ≤ steps.new.pages }
{
    match world.thinker(i) {
        Thinker::Door {
            sector,
            kind,
            phase,
            top,
            count,
        } => {
            let door = MovingDoor {
                place: i,
                sector,
                kind,
                phase,
                top,
                count,
            };
            run_door(alloc, level, tables, world, &door, steps)
        }
        Thinker::Lift {
            sector,
            kind,
            phase,
            stopped,
            low,
            high,
            wait,
            count,
        } => {
            let lift = MovingLift {
                place: i,
                sector,
                kind,
                phase,
                stopped,
                low,
                high,
                wait,
                count,
            };
            run_lift(alloc, level, tables, world, &lift, steps)
        }
        Thinker::Floor { sector, kind, dest } => {
            let floor = MovingFloor {
                place: i,
                sector,
                kind,
                dest,
            };
            run_floor(alloc, level, tables, world, &floor, steps)
        }
        Thinker::Light { .. } => Ok(light(level, tables, world, i, steps)?),
        Thinker::Ended => Ok(()),
    }
}

// One tic of a light.
fn light(
    level: &Level,
    tables: &PlayTables,
    world: &mut World,
    i: u32,
    steps: &mut Steps,
) -> Result<(), Memory>
    requires fits { Fits level.now tables.now world.old }
    requires there { i < length (parts world.old).thinkers }
    ensures ok { OnOk result (world.new ≡ run_light_of tables.now i world.old) }
    ensures fits { OnOk result (Fits level.now tables.now world.new) }
    ensures many { OnOk result (length (parts world.new).thinkers ≡ length (parts world.old).thinkers) }

    ensures tics { steps.new.tics ≡ steps.old.tics }
    ensures pages { steps.old.pages ≤ steps.new.pages }
{
    run_light(level, tables, world, i, steps)
}
