//! What lies around a sector and in a line, and random numbers, on the level of two sectors: one from 0 to 128 units in
//! height, and one from 24 to 96.
ghost use Rattle.cow_world.specs.Flat.{IsLive};
ghost use Rattle.cow_world.specs.Fits.{FitsLevel};

use crate::levels::sample;
use crate::rows::{at, behind, expect, numbers, word};
use crate::starts::tables;
use cow_world::World;
use fixed_angle::PlayTables;
use map_geometry::Level;
use std::alloc::Global;
use std::process::Abort;
use std::test::Fail;

const UNIT: i32 = 65536;

/// A height in map units, where it is a whole number of them.
fn units(height: i32) -> i64 {
    if height % UNIT == 0 {
        i64::from(height / UNIT)
    } else {
        i64::MIN
    }
}

/// The heights around a sector, if it is there: lowest ceiling, lowest floor, highest floor, next floor.
fn heights(level: &Level, world: &World, sector: u32) -> [i64; 4]
    requires fits { FitsLevel level.now world.now }
{
    if sector as usize >= level.sector_count() {
        return [-1; 4];
    }
    [
        units(world.lowest_ceiling_around(level, sector)),
        units(world.lowest_floor_around(level, sector)),
        units(world.highest_floor_around(level, sector)),
        units(world.next_floor_around(level, sector)),
    ]
}

/// The gap of a line, if it is there: its range, top, bottom and low.
fn gap(level: &Level, world: &World, line: u32) -> [i64; 4]
    requires fits { FitsLevel level.now world.now }
{
    if line as usize >= level.line_count() {
        return [-1; 4];
    }
    let gap = world.gap(level, line);
    [
        units(gap.range),
        units(gap.top),
        units(gap.bottom),
        units(gap.low),
    ]
}

/// A sector (0) or a line (1), its number, and its heights or its gap in map units. The second line is a wall.
const HEIGHTS: &str = "\
0 0 96 0 24 24
0 1 128 0 0 24
1 0 72 96 24 0
1 1 0 0 0 0";

fn expect_heights(rt: &impl Abort, alloc: Global, level: &Level, world: &World) -> Result<(), Fail>
    requires fits { FitsLevel level.now world.now }
{
    for line in HEIGHTS.lines() {
        let row = numbers(alloc, line)?;
        let found = if at(&row, 0) == 0 {
            heights(level, world, word(&row, 1))
        } else {
            gap(level, world, word(&row, 1))
        };
        expect(rt, line, &found, behind(&row, 2));
    }
    Ok(())
}

#[test]
fn heights_around(rt: HostRuntime) -> Result<(), Fail> {
    let level = sample(rt.alloc())?;
    let world = World::opening(rt.alloc(), &level)?;
    expect_heights(&rt, rt.alloc(), &level, &world)
}

/// Two numbers that are drawn from the index 254 on, and the index then.
fn draws(tables: &PlayTables, world: &mut World) -> [i64; 3]
    requires live { IsLive world.old }
{
    world.set_rng(254);
    let first = world.draw(tables);
    let second = world.draw(tables);
    [i64::from(first), i64::from(second), i64::from(world.rng())]
}

fn drawn(alloc: Global, tables: &PlayTables, level: &Level) -> Result<[i64; 3], Fail> {
    let mut world = World::opening(alloc, level)?;
    Ok(draws(tables, &mut world))
}

/// The index is raised before it is read, and 0 follows 255. The number at i is (97 i + 13) modulo 256.
fn expect_drawn(rt: &impl Abort, alloc: Global, level: &Level) -> Result<(), Fail> {
    let tables = tables(alloc)?;
    let found = drawn(alloc, &tables, level)?;
    expect(rt, "from 254", &found, &[172, 13, 0]);
    Ok(())
}

#[test]
fn random_numbers(rt: HostRuntime) -> Result<(), Fail> {
    let level = sample(rt.alloc())?;
    expect_drawn(&rt, rt.alloc(), &level)
}
