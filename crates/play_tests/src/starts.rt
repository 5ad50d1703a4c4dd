//! Levels that start, with numbers worked out by hand.
ghost use Rattle.cow_world.specs.Fits.{Fits};

use crate::levels::level_of;
use crate::rows::{at, behind, expect, numbers, short, signed};
use cow_world::World;
use doom_edge::Memory;
use fixed_angle::PlayTables;
use level_start::{StartFault, start};
use lmp_codec::{Header, read_demo};
use map_geometry::Level;
use sample_inputs::{HEADER, PlanKind, PlanThing, demo, play_tables_of, single_room};
use std::alloc::{AllocError, Global};
use std::process::Abort;
use std::test::Fail;

/// A kind with these flags, whose first state ticks.
fn kind(number: u16, flags: u16) -> PlanKind {
    PlanKind {
        number,
        flags,
        radius: 1_310_720,
        height: 1_048_576,
        first: 10,
    }
}

/// Play tables with a key, a kind that isn't linked, a monster and one that hangs.
pub(crate) fn tables(alloc: Global) -> Result<PlayTables, Fail> {
    let kinds = [kind(5, 1), kind(14, 32), kind(3004, 16), kind(63, 8)];
    let tables = PlayTables::read(alloc, &play_tables_of(alloc, &kinds)?)?;
    Ok(tables)
}

/// The header of a demo of this skill.
pub(crate) fn header(alloc: Global, skill: u8) -> Result<Header, Fail> {
    let mut bytes = HEADER;
    bytes[1] = skill;
    let demo = read_demo(alloc, &demo(alloc, &bytes, &[])?)?;
    Ok(demo.header)
}

fn byte(row: &[i64], place: usize) -> u8 {
    u8::try_from(at(row, place)).unwrap_or(u8::MAX)
}

/// A thing by its number, angle and options: the player's start in the middle of the room, or what is east of it.
fn thing_of(row: &[i64], place: usize) -> PlanThing {
    let number = short(row, place);
    PlanThing {
        number,
        x: if number == 1 { 0 } else { 40 },
        y: 0,
        angle: signed(row, place.wrapping_add(1)),
        options: signed(row, place.wrapping_add(2)),
    }
}

/// The three things of a row. One of number 0 is left out.
fn things_of(alloc: Global, row: &[i64]) -> Result<Vec<PlanThing>, AllocError> {
    let mut things = Vec::new(alloc);
    for place in [2, 5, 8] {
        let thing = thing_of(row, place);
        if thing.number > 0 {
            things.push(thing)?;
        }
    }
    Ok(things)
}

/// What is shown of a start: 0, the player's thing, its x, y and z in map units, its angle and the random index.
fn shown(level: &Level, tables: &PlayTables, world: &World) -> [i64; 7]
    requires fits { Fits level.now tables.now world.now }
{
    let _level = level;
    let _tables = tables;
    let player = world.player();
    let thing = world.thing(player.thing);
    [
        0,
        i64::from(player.thing),
        i64::from(thing.x / 65536),
        i64::from(thing.y / 65536),
        i64::from(thing.z / 65536),
        i64::from(player.angle),
        i64::from(world.rng()),
    ]
}

/// The things in the middle block, the last linked first.
fn middle_things(
    alloc: Global,
    level: &Level,
    tables: &PlayTables,
    world: &World,
) -> Result<Vec<u32>, Memory>
    requires fits { Fits level.now tables.now world.now }
{
    let _tables = tables;
    let mut things = Vec::new(alloc);
    world.linked_in(level, 4, 4, &mut things)?;
    Ok(things)
}

/// What is shown of a start, and those things.
fn stands(
    alloc: Global,
    level: &Level,
    tables: &PlayTables,
    world: &World,
) -> Result<Vec<i64>, Fail>
    requires fits { Fits level.now tables.now world.now }
{
    let mut found = Vec::from_slice(alloc, &shown(level, tables, world))?;
    for thing in &middle_things(alloc, level, tables, world)? {
        found.push(i64::from(*thing))?;
    }
    Ok(found)
}

/// Why a level doesn't start: a number of its own for each kind of fault, and what the fault names.
fn told(fault: StartFault) -> [i64; 3] {
    let (kind, thing, number) = match fault {
        StartFault::NoStart => (1, 0, 0),
        StartFault::Voodoo => (2, 0, 0),
        StartFault::ThingUnknown(thing, number) => (3, thing, number),
        StartFault::Doom2Thing(thing) => (4, thing, 0),
        StartFault::Spitter(thing) => (5, thing, 0),
        StartFault::Memory => (6, 0, 0),
    };
    [kind, i64::from(thing), i64::from(number)]
}

/// How a level starts, or why it doesn't.
fn outcome(
    alloc: Global,
    level: &Level,
    tables: &PlayTables,
    header: &Header,
) -> Result<Vec<i64>, Fail> {
    match start(alloc, level, tables, header) {
        Ok(world) => stands(alloc, level, tables, &world),
        Err(fault) => Ok(Vec::from_slice(alloc, &told(fault))?),
    }
}

const E1M1: &[u8; 8] = b"E1M1\0\0\0\0";

const MAP01: &[u8; 8] = b"MAP01\0\0\0";

/// The map of a row.
fn map_of(alloc: Global, row: &[i64]) -> Result<Level, Fail> {
    let mut plan = single_room(alloc)?;
    plan.label = if at(row, 0) == 1 { *E1M1 } else { *MAP01 };
    plan.things = things_of(alloc, row)?;
    level_of(alloc, &plan)
}

fn outcome_of(alloc: Global, tables: &PlayTables, row: &[i64]) -> Result<Vec<i64>, Fail> {
    let header = header(alloc, byte(row, 1))?;
    let level = map_of(alloc, row)?;
    outcome(alloc, &level, tables, &header)
}

fn expect_starts(
    rt: &impl Abort,
    alloc: Global,
    tables: &PlayTables,
    rows: &str,
) -> Result<(), Fail> {
    for line in rows.lines() {
        let row = numbers(alloc, line)?;
        let found = outcome_of(alloc, tables, &row)?;
        expect(rt, line, &found, behind(&row, 11));
    }
    Ok(())
}

/// E1M1 or MAP01, the skill, three things by number, angle and options, how the level starts, and what is linked in the
/// middle. Each thing that is spawned draws a number, and one more since its first state ticks; an angle is cut to
/// whole eighths of a turn, toward zero. Things are linked in their order, but for those of a kind that isn't.
const STARTS: &str = "\
1 2  1 0 7  0 0 0  0 0 0  0 0 0 0 0 0 1  0
1 2  1 -50 7  0 0 0  0 0 0  0 0 0 0 0 3758096384 1  0
1 2  1 135 7  0 0 0  0 0 0  0 0 0 0 0 1610612736 1  0
1 2  1 0 7  5 0 7  0 0 0  0 0 0 0 0 0 3  1 0
1 2  1 0 7  5 0 5  0 0 0  0 0 0 0 0 0 1  0
1 2  1 0 7  5 0 18  0 0 0  0 0 0 0 0 0 1  0
1 1  1 0 7  5 0 1  0 0 0  0 0 0 0 0 0 3  1 0
1 3  1 0 7  5 0 4  0 0 0  0 0 0 0 0 0 3  1 0
1 2  1 0 7  11 0 7  0 0 0  0 0 0 0 0 0 1  0
1 2  1 0 7  3004 0 7  0 0 0  0 0 0 0 0 0 1  0
1 2  63 0 7  1 0 7  0 0 0  0 1 0 0 0 0 3  1 0
1 2  1 0 7  14 0 7  5 0 7  0 0 0 0 0 0 5  2 0";

/// The first fault in the order of the things, and that none is the player's start after all of them. A fault is told
/// as `told` says: nobody starts, two do, a number that the tables don't have, one of Doom II alone, one that shoots
/// cubes.
const REFUSALS: &str = "\
1 2  0 0 0  0 0 0  0 0 0  1 0 0
1 2  1 0 7  1 0 7  0 0 0  2 0 0
1 2  7777 0 7  0 0 0  0 0 0  3 0 7777
1 2  1 0 7  7777 0 5  0 0 0  0 0 0 0 0 0 1  0
1 2  1 0 7  84 0 0  0 0 0  4 1 0
1 2  1 0 7  89 0 7  0 0 0  4 1 0
2 2  1 0 7  89 0 7  0 0 0  5 1 0
2 2  89 0 7  7777 0 7  0 0 0  5 0 0";

#[test]
fn starts(rt: HostRuntime) -> Result<(), Fail> {
    let tables = tables(rt.alloc())?;
    expect_starts(&rt, rt.alloc(), &tables, STARTS)?;
    expect_starts(&rt, rt.alloc(), &tables, REFUSALS)
}
