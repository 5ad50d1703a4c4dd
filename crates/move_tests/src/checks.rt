//! The position check: what it lists, what it touches, and where nothing is.
ghost use Rattle.std.specs.Prelude.{◌≡◌, OnOk};
ghost use Rattle.cow_world.specs.Fits.{Fits};

use crate::starts::{UNIT, level_of, started, tables_of};
use clip_check::{Checked, check_position};
use cow_world::{PlayFault, Thing, World};
use doom_edge::Steps;
use fixed_angle::PlayTables;
use game_trait::Halt;
use map_geometry::Level;
use sample_inputs::{PlanKind, PlanThing, picket_room, single_room};
use std::alloc::Global;
use std::process::Abort;
use std::test::Fail;

/// The player's check at a place in map units.
fn check(
    alloc: Global,
    level: &Level,
    tables: &PlayTables,
    world: &mut World,
    x: i32,
) -> Result<Checked, PlayFault>
    requires fits { Fits level.now tables.now world.old }
    ensures fits { OnOk result (Fits level.now tables.now world.new) }
{
    let player = world.player().thing;
    let x = x.wrapping_mul(UNIT);
    check_position(alloc, level, tables, world, player, x, 0, &mut Steps::new())
}

/// How many lines are listed where the player stands; none where the check halts.
fn count_listed(
    alloc: Global,
    level: &Level,
    tables: &PlayTables,
    world: &mut World,
) -> Result<Option<usize>, Fail>
    requires fits { Fits level.now tables.now world.old }
{
    match check(alloc, level, tables, world, 0) {
        Ok(checked) => Ok(Some(checked.listed.len())),
        Err(PlayFault::Halt(Halt::Listed)) => Ok(None),
        Err(_) => Err(Fail::from("the check has another end")),
    }
}

/// The same, where the player lies on so many lines with a special.
fn listed_of(alloc: Global, count: u16) -> Result<Option<usize>, Fail> {
    let level = level_of(alloc, &picket_room(alloc, count, 48)?)?;
    let tables = tables_of(alloc, &[])?;
    let mut world = started(alloc, &level, &tables)?;
    count_listed(alloc, &level, &tables, &mut world)
}

#[test]
fn eight_lines_are_listed(rt: HostRuntime) -> Result<(), Fail> {
    assert_eq!(rt; listed_of(rt.alloc(), 8)?, Some(8));
    assert_eq!(rt; listed_of(rt.alloc(), 9)?, None);
    Ok(())
}

const KEY: PlanKind = PlanKind {
    number: 5,
    flags: 1,
    radius: 20 * UNIT,
    height: 16 * UNIT,
    first: 0,
};

/// A key that is in the way.
const SOLID_KEY: PlanKind = PlanKind { flags: 3, ..KEY };

const MEDIKIT: PlanKind = PlanKind {
    number: 2012,
    ..KEY
};

const BONUS: PlanKind = PlanKind {
    number: 2014,
    ..KEY
};

/// The same thing at another height.
fn at_height(thing: &Thing, z: i32) -> Thing
    ensures { result ≡ record thing.now { z = z } }
{
    Thing { z, ..*thing }
}

/// The player stands at another height.
fn raise(level: &Level, tables: &PlayTables, world: &mut World, z: i32) -> Result<(), PlayFault>
    requires fits { Fits level.now tables.now world.old }
    ensures fits { OnOk result (Fits level.now tables.now world.new) }
{
    let _level = level;
    let _tables = tables;
    let player = world.player().thing;
    let to = at_height(&world.thing(player), z);
    world.set_thing(player, to, &mut Steps::new())?;
    Ok(())
}

/// Whether the thing beside the player is gone, whether nothing is in the way, the keys and the health.
type Touched = (bool, bool, u8, i32);

fn shown(level: &Level, tables: &PlayTables, world: &World, clear: bool) -> Option<Touched>
    requires fits { Fits level.now tables.now world.now }
{
    let _level = level;
    let _tables = tables;
    if world.thing_count() < 2 {
        return None;
    }
    let player = world.player();
    let thing = world.thing(1);
    Some((!thing.present, clear, player.keys, player.body.health))
}

/// What the check of the player at a height comes to.
fn check_at(
    alloc: Global,
    level: &Level,
    tables: &PlayTables,
    world: &mut World,
    z: i32,
) -> Result<Option<Touched>, PlayFault>
    requires fits { Fits level.now tables.now world.old }
{
    raise(level, tables, world, z)?;
    let clear = check(alloc, level, tables, world, 0)?.clear;
    Ok(shown(level, tables, world, clear))
}

/// A room with the player and a thing of a kind beside it.
fn beside(alloc: Global, kind: &PlanKind) -> Result<Level, Fail> {
    let mut plan = single_room(alloc)?;
    plan.things.push(PlanThing {
        number: kind.number,
        x: 20,
        y: 0,
        angle: 0,
        options: 7,
    })?;
    level_of(alloc, &plan)
}

/// What the check of the player at a height comes to, beside a thing of a kind that lies on the floor.
fn touch(alloc: Global, kind: &PlanKind, z: i32) -> Result<Option<Touched>, Fail> {
    let level = beside(alloc, kind)?;
    let tables = tables_of(alloc, &[*kind])?;
    let mut world = started(alloc, &level, &tables)?;
    let touched = check_at(alloc, &level, &tables, &mut world, z)?;
    Ok(touched)
}

// A thing is out of reach where it is more than the player's height of 56 units above, or more than 8 below.
#[test]
fn key_in_reach(rt: HostRuntime) -> Result<(), Fail> {
    let taken = Some((true, true, 1, 100));
    let left = Some((false, true, 0, 100));
    assert_eq!(rt; touch(rt.alloc(), &KEY, -56 * UNIT)?, taken);
    assert_eq!(rt; touch(rt.alloc(), &KEY, -56 * UNIT - 1)?, left);
    assert_eq!(rt; touch(rt.alloc(), &KEY, 8 * UNIT)?, taken);
    assert_eq!(rt; touch(rt.alloc(), &KEY, 8 * UNIT + 1)?, left);
    Ok(())
}

// A thing that was taken and is solid is in the way once; a medikit is left by who is whole.
#[test]
fn other_things(rt: HostRuntime) -> Result<(), Fail> {
    assert_eq!(rt;
        touch(rt.alloc(), &SOLID_KEY, 0)?,
        Some((true, false, 1, 100))
    );
    assert_eq!(rt;
        touch(rt.alloc(), &MEDIKIT, 0)?,
        Some((false, true, 0, 100))
    );
    assert_eq!(rt; touch(rt.alloc(), &BONUS, 0)?, Some((true, true, 0, 101)));
    Ok(())
}

/// What the check comes to at a place: whether nothing is in the way, the floor, the ceiling and the lowest floor.
fn ground(
    alloc: Global,
    level: &Level,
    tables: &PlayTables,
    world: &mut World,
    x: i32,
) -> Result<(bool, [i32; 3]), PlayFault>
    requires fits { Fits level.now tables.now world.old }
    ensures fits { OnOk result (Fits level.now tables.now world.new) }
{
    let checked = check(alloc, level, tables, world, x)?;
    Ok((
        checked.clear,
        [checked.floor, checked.ceiling, checked.dropoff],
    ))
}

fn try_edges(
    rt: &impl Abort,
    alloc: Global,
    level: &Level,
    tables: &PlayTables,
    world: &mut World,
) -> Result<(), Fail>
    requires fits { Fits level.now tables.now world.old }
{
    let room = [0, 128 * UNIT, 0];
    assert_eq!(rt; ground(alloc, level, tables, world, -512)?, (false, room));
    assert_eq!(rt; ground(alloc, level, tables, world, 20000)?, (true, room));
    Ok(())
}

// The room's walls stop the player over the edge of the grid, and far outside nothing is in the way.
#[test]
fn over_the_edge(rt: HostRuntime) -> Result<(), Fail> {
    let level = level_of(rt.alloc(), &single_room(rt.alloc())?)?;
    let tables = tables_of(rt.alloc(), &[])?;
    let mut world = started(rt.alloc(), &level, &tables)?;
    try_edges(&rt, rt.alloc(), &level, &tables, &mut world)
}
