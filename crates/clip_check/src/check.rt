//! The check of a thing at a place.
ghost use Rattle.std.specs.Prelude.{◌≡◌, ◌<◌, ◌≤◌, length, All, IfOk, OnOk};
ghost use Rattle.cow_world.specs.Flat.{IsLive, parts};
ghost use Rattle.cow_world.specs.Fits.{Fits};
ghost use Rattle.cow_world.specs.Outcome.{Plays};
ghost use Rattle.clip_check.specs.Aside.{TouchesOnly};
ghost use Rattle.clip_check.specs.Checks.{trial_of, tried_of, check_of};

use crate::lines::{between, find_between, ground};
use crate::things::meet_things;
use crate::trial::{Checked, Trial};
use cow_world::{PlayFault, World};
use doom_edge::Steps;
use fixed_angle::PlayTables;
use map_geometry::Level;
use std::alloc::Global;

/// Checks a thing at (x, y): whether anything is in its way, between which floor and ceiling it would stand, over which
/// drop, and which special lines its box lies on. Things come first, and then lines; the first that is in the way ends
/// the check. The player touches each special thing that it meets, up to the one that is in the way, whatever comes of
/// the check. A ninth listed line halts. It takes no memory unless more than 16 things stand around, one is taken, or
/// the thing's box lies on more than 64 blocks of the grid. After a halt or want of memory nothing is said of the
/// world.
#[tactic(auto, unfolding(crate::specs::Checks::check_of))]
pub fn check_position(
    alloc: Global,
    level: &Level,
    tables: &PlayTables,
    world: &mut World,
    thing: u32,
    x: i32,
    y: i32,
    steps: &mut Steps,
) -> Result<Checked, PlayFault>
    requires fits { Fits level.now tables.now world.old }
    requires there { thing < length (parts world.old).things }
    ensures plays { Plays result world.new (check_of level.now tables.now world.old thing x y) }
    ensures fits { OnOk result (Fits level.now tables.now world.new) }
    ensures there { IfOk result (λ checked. All (λ line. line < length level.now.lines) checked.listed) }
    ensures aside { OnOk result (TouchesOnly world.old world.new) }

    ensures tics { steps.new.tics ≡ steps.old.tics }
    ensures pages { steps.old.pages ≤ steps.new.pages }
{
    let trial = trial_of(tables, world, thing, x, y);
    try_at(alloc, level, tables, world, &trial, steps)
}

// A thing, tried at a place.
fn trial_of(tables: &PlayTables, world: &World, thing: u32, x: i32, y: i32) -> Trial
    requires live { IsLive world.now }
    requires there { thing < length (parts world.now).things }
    ensures { result ≡ trial_of tables.now world.now thing x y }
{
    Trial {
        thing,
        player: thing == world.player().thing,
        x,
        y,
        radius: world.shape(tables, thing).radius,
    }
}

// The check of a trial.
fn try_at(
    alloc: Global,
    level: &Level,
    tables: &PlayTables,
    world: &mut World,
    trial: &Trial,
    steps: &mut Steps,
) -> Result<Checked, PlayFault>
    requires fits { Fits level.now tables.now world.old }
    ensures plays { Plays result world.new (tried_of level.now tables.now world.old trial.now) }
    ensures fits { OnOk result (Fits level.now tables.now world.new) }
    ensures there { IfOk result (λ checked. All (λ line. line < length level.now.lines) checked.listed) }
    ensures aside { OnOk result (TouchesOnly world.old world.new) }

    ensures tics { steps.new.tics ≡ steps.old.tics }
    ensures pages { steps.old.pages ≤ steps.new.pages }
{
    if meet_things(alloc, level, tables, world, trial, steps)? {
        return Ok(between(false, &ground(level, world, trial)));
    }
    find_between(alloc, level, world, trial)
}
