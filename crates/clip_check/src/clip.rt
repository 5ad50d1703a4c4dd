//! The clip of a thing's height.
ghost use Rattle.std.specs.Prelude.{◌≡◌, ◌<◌, ◌≤◌, length, IfOk, OnOk};
ghost use Rattle.cow_world.specs.Flat.{IsLive, parts};
ghost use Rattle.cow_world.specs.Fits.{Fits, KeepsFit};
ghost use Rattle.cow_world.specs.Outcome.{Plays};
ghost use Rattle.clip_check.specs.Aside.{TouchesOnly};
ghost use Rattle.clip_check.specs.Clips.{height_between, clipped, fits_between, clip_after, clip_of};

use crate::check::check_position;
use crate::trial::Checked;
use cow_world::{PlayFault, Shape, Thing, World};
use doom_edge::{Memory, Steps};
use fixed_angle::PlayTables;
use map_geometry::{Level, difference, sum};
use std::alloc::Global;

/// Clips a thing's height between the floor and the ceiling that its check at its place finds. They are the thing's
/// from then on, whatever else the check says. A thing that stood on its floor stands on the new one; another one is
/// pushed down where it would stick in the ceiling. Whether it fits between them. The player touches things, as in each
/// check. After a halt or want of memory nothing is said of the world.
#[tactic(auto, using(crate::proofs::Asides::aside_two), unfolding(crate::specs::Clips::clip_of))]
pub fn height_clip(
    alloc: Global,
    level: &Level,
    tables: &PlayTables,
    world: &mut World,
    thing: u32,
    steps: &mut Steps,
) -> Result<bool, PlayFault>
    requires fits { Fits level.now tables.now world.old }
    requires there { thing < length (parts world.old).things }
    ensures plays { Plays result world.new (clip_of level.now tables.now world.old thing) }
    ensures fits { OnOk result (Fits level.now tables.now world.new) }
    ensures aside { OnOk result (TouchesOnly world.old world.new) }

    ensures tics { steps.new.tics ≡ steps.old.tics }
    ensures pages { steps.old.pages ≤ steps.new.pages }
{
    let at = world.thing(thing);
    let checked = check_position(alloc, level, tables, world, thing, at.x, at.y, steps)?;
    Ok(settle(tables, world, thing, &checked, steps)?)
}

// The thing takes the floor and the ceiling that were found. Whether it fits between them.
#[tactic(auto, using(crate::proofs::Asides::aside_set_thing))]
fn settle(
    tables: &PlayTables,
    world: &mut World,
    thing: u32,
    checked: &Checked,
    steps: &mut Steps,
) -> Result<bool, Memory>
    requires live { IsLive world.old }
    requires there { thing < length (parts world.old).things }
    ensures ok { IfOk result (λ fits. (world.new, fits) ≡ clip_after tables.now thing (world.old, checked.now)) }
    ensures fits { OnOk result (KeepsFit world.old world.new) }
    ensures aside { OnOk result (TouchesOnly world.old world.new) }

    ensures tics { steps.new.tics ≡ steps.old.tics }
    ensures pages { steps.old.pages ≤ steps.new.pages }
{
    let shape = world.shape(tables, thing);
    let after = clipped(&world.thing(thing), &shape, checked);
    world.set_thing(thing, after, steps)?;
    Ok(fits_between(&shape, checked))
}

// The thing between the floor and the ceiling that were found.
fn clipped(thing: &Thing, shape: &Shape, checked: &Checked) -> Thing
    ensures { result ≡ clipped thing.now shape.now.height checked.now.floor checked.now.ceiling }
{
    let z = height_between(thing, shape.height, checked.floor, checked.ceiling);
    Thing {
        z,
        floorz: checked.floor,
        ceilingz: checked.ceiling,
        ..*thing
    }
}

// How high the thing then stands.
fn height_between(thing: &Thing, height: i32, floor: i32, ceiling: i32) -> i32
    ensures { result ≡ height_between thing.now height floor ceiling }
{
    if thing.z == thing.floorz {
        floor
    } else if sum(thing.z, height) > ceiling {
        difference(ceiling, height)
    } else {
        thing.z
    }
}

// Whether they are at least the thing's height apart.
fn fits_between(shape: &Shape, checked: &Checked) -> bool
    ensures { result ≡ fits_between shape.now.height checked.now.floor checked.now.ceiling }
{
    difference(checked.ceiling, checked.floor) >= shape.height
}
