//! Each kind of light over some tics, by the sum of its levels and the random index then, with numbers that a program
//! of its own worked out from the rules.
ghost use Rattle.std.specs.Prelude.{◌<◌, length, OnOk};
ghost use Rattle.cow_world.specs.Fits.{Fits};

use crate::levels::level_of;
use crate::rows::{behind, expect, int, numbers, short, signed};
use crate::starts::{header, tables};
use cow_world::World;
use doom_edge::{Memory, Steps};
use fixed_angle::PlayTables;
use level_start::start;
use light_fx::run_lights;
use lmp_codec::Header;
use map_geometry::Level;
use sample_inputs::{MapPlan, PlanSector, single_room, two_sectors};
use std::alloc::{AllocError, Global};
use std::process::Abort;
use std::test::Fail;

/// The light of a sector with a special.
const BRIGHT: i16 = 160;

/// A room, with another one beside it or without.
fn rooms(alloc: Global, two: bool) -> Result<MapPlan, AllocError> {
    if two {
        two_sectors(alloc, 48, (0, 128, 0), (0, 128, 0), 0, 0)
    } else {
        single_room(alloc)
    }
}

/// A sector with a special, beside one of another light; a light below 0 is that of no sector.
fn hall(alloc: Global, special: u16, beside: i16) -> Result<Level, Fail> {
    let mut plan = rooms(alloc, beside >= 0)?;
    let dim = PlanSector {
        floor: 0,
        ceiling: 128,
        light: beside,
        special: 0,
        tag: 0,
    };
    let bright = PlanSector {
        light: BRIGHT,
        special,
        ..dim
    };
    plan.sectors = vec![in alloc; bright, dim]?;
    level_of(alloc, &plan)
}

/// Plays a tic of all lights.
fn run_tic(
    level: &Level,
    tables: &PlayTables,
    world: &mut World,
    steps: &mut Steps,
) -> Result<(), Memory>
    requires fits { Fits level.now tables.now world.old }
    ensures fits { OnOk result (Fits level.now tables.now world.new) }
{
    run_lights(level, tables, world, steps)
}

/// The light of the first sector a tic later.
fn lit(
    level: &Level,
    tables: &PlayTables,
    world: &mut World,
    steps: &mut Steps,
) -> Result<i64, Memory>
    requires fits { Fits level.now tables.now world.old }
    requires there { 0 < length level.now.sectors }
    ensures fits { OnOk result (Fits level.now tables.now world.new) }
{
    run_tic(level, tables, world, steps)?;
    Ok(i64::from(world.sector(0).light))
}

/// The sum of the lights after each of so many tics, and the random index then.
fn lit_in_all(
    level: &Level,
    tables: &PlayTables,
    world: &mut World,
    tics: i32,
) -> Result<[i64; 2], Memory>
    requires fits { Fits level.now tables.now world.old }
    requires there { 0 < length level.now.sectors }
{
    let mut steps = Steps::new();
    let mut sum = 0i64;
    for _tic in 0..tics {
        sum = sum.wrapping_add(lit(level, tables, world, &mut steps)?);
    }
    Ok([sum, i64::from(world.rng())])
}

/// The same from the start of a level.
fn shone(
    alloc: Global,
    level: &Level,
    tables: &PlayTables,
    header: &Header,
    tics: i32,
) -> Result<[i64; 2], Fail>
    requires there { 0 < length level.now.sectors }
{
    let mut world = start(alloc, level, tables, header)?;
    Ok(lit_in_all(level, tables, &mut world, tics)?)
}

fn shine(
    alloc: Global,
    tables: &PlayTables,
    header: &Header,
    row: &[i64],
) -> Result<[i64; 2], Fail> {
    let level = hall(alloc, short(row, 0), signed(row, 1))?;
    if level.sector_count() == 0 {
        return Err(Fail::from("the level has a sector"));
    }
    shone(alloc, &level, tables, header, int(row, 2))
}

/// A sector's special, the light beside it, how many tics are played, the sum, and the random index. First those that
/// draw: a flash, strobes and a flicker; then a glow, and strobes in step. The player's start drew one number. Last a
/// flash with nothing beside it, which goes dark after 65 tics, and draws from then on as its numbers say.
const LIGHTS: &str = "\
1 80 80 12480 6
2 80 80 8160 2
3 80 80 7360 2
17 80 80 10720 21
8 80 80 9632 1
12 80 80 7200 1
13 80 80 8000 1
1 -1 64 10240 2
1 -1 65 10400 3
1 -1 66 10560 4
1 -1 67 10720 4
1 -1 68 10880 5";

fn expect_lights(
    rt: &impl Abort,
    alloc: Global,
    tables: &PlayTables,
    header: &Header,
) -> Result<(), Fail> {
    for line in LIGHTS.lines() {
        let row = numbers(alloc, line)?;
        let found = shine(alloc, tables, header, &row)?;
        expect(rt, line, &found, behind(&row, 3));
    }
    Ok(())
}

#[test]
fn lights(rt: HostRuntime) -> Result<(), Fail> {
    let tables = tables(rt.alloc())?;
    let header = header(rt.alloc(), 2)?;
    expect_lights(&rt, rt.alloc(), &tables, &header)
}
