//! A door and a lift by their heights at some tics.
ghost use Rattle.std.specs.Prelude.{◌<◌, length, OnOk};
ghost use Rattle.cow_world.specs.Fits.{Fits};

use crate::starts::{UNIT, level_of, started, tables_of};
use cow_world::{DoorKind, PlatKind, PlayFault, World};
use doom_edge::Steps;
use fixed_angle::PlayTables;
use map_geometry::Level;
use mover_run::run_thinkers;
use mover_start::{do_door, do_plat};
use sample_inputs::two_sectors;
use std::alloc::Global;
use std::process::Abort;
use std::test::Fail;

/// So many tics of all thinkers.
fn run(
    alloc: Global,
    level: &Level,
    tables: &PlayTables,
    world: &mut World,
    count: u32,
) -> Result<(), PlayFault>
    requires fits { Fits level.now tables.now world.old }
    ensures fits { OnOk result (Fits level.now tables.now world.new) }
{
    let mut steps = Steps::new();
    for _tic in 0..count {
        run_thinkers(alloc, level, tables, world, &mut steps)?;
    }
    Ok(())
}

/// The floor and the ceiling of a sector in map units, so many tics later.
fn heights(
    alloc: Global,
    level: &Level,
    tables: &PlayTables,
    world: &mut World,
    count: u32,
    sector: u32,
) -> Result<(i32, i32), PlayFault>
    requires fits { Fits level.now tables.now world.old }
    requires there { sector < length level.now.sectors }
    ensures fits { OnOk result (Fits level.now tables.now world.new) }
{
    run(alloc, level, tables, world, count)?;
    let sector = world.sector(sector);
    Ok((sector.floor / UNIT, sector.ceiling / UNIT))
}

fn open_door(level: &Level, tables: &PlayTables, world: &mut World) -> Result<bool, PlayFault>
    requires fits { Fits level.now tables.now world.old }
    requires line { 0 < length level.now.lines }
    ensures fits { OnOk result (Fits level.now tables.now world.new) }
{
    let _tables = tables;
    do_door(level, world, 0, DoorKind::Normal, &mut Steps::new())
}

fn try_door(
    rt: &impl Abort,
    alloc: Global,
    level: &Level,
    tables: &PlayTables,
    world: &mut World,
) -> Result<(), Fail>
    requires fits { Fits level.now tables.now world.old }
    requires sectors { 1 < length level.now.sectors }
    requires line { 0 < length level.now.lines }
{
    assert!(rt; open_door(level, tables, world)?);
    assert_eq!(rt; heights(alloc, level, tables, world, 1, 1)?, (0, 2));
    assert_eq!(rt; heights(alloc, level, tables, world, 61, 1)?, (0, 124));
    assert_eq!(rt; heights(alloc, level, tables, world, 151, 1)?, (0, 124));
    assert_eq!(rt; heights(alloc, level, tables, world, 1, 1)?, (0, 122));
    Ok(())
}

// A door opens by 2 units a tic to 4 below the ceiling beside it. It is at its end one tic later, and waits for 150.
#[test]
fn a_door(rt: HostRuntime) -> Result<(), Fail> {
    let plan = two_sectors(rt.alloc(), 48, (0, 128, 0), (0, 0, 1), 1, 1)?;
    let level = level_of(rt.alloc(), &plan)?;
    if level.sector_count() < 2 || level.line_count() == 0 {
        return Err(Fail::from("the level has two sectors and a line"));
    }
    let tables = tables_of(rt.alloc(), &[])?;
    let mut world = started(rt.alloc(), &level, &tables)?;
    try_door(&rt, rt.alloc(), &level, &tables, &mut world)
}

fn lower_lift(level: &Level, tables: &PlayTables, world: &mut World) -> Result<bool, PlayFault>
    requires fits { Fits level.now tables.now world.old }
    requires line { 0 < length level.now.lines }
    ensures fits { OnOk result (Fits level.now tables.now world.new) }
{
    do_plat(
        level,
        tables,
        world,
        0,
        PlatKind::DownWaitUp,
        &mut Steps::new(),
    )
}

fn try_lift(
    rt: &impl Abort,
    alloc: Global,
    level: &Level,
    tables: &PlayTables,
    world: &mut World,
) -> Result<(), Fail>
    requires fits { Fits level.now tables.now world.old }
    requires sectors { 1 < length level.now.sectors }
    requires line { 0 < length level.now.lines }
{
    assert!(rt; lower_lift(level, tables, world)?);
    assert_eq!(rt; heights(alloc, level, tables, world, 32, 0)?, (0, 256));
    assert_eq!(rt; heights(alloc, level, tables, world, 106, 0)?, (0, 256));
    assert_eq!(rt; heights(alloc, level, tables, world, 1, 0)?, (4, 256));
    assert_eq!(rt; heights(alloc, level, tables, world, 31, 0)?, (128, 256));
    Ok(())
}

// A lift goes down by 4 units a tic, is at its end one tic later, and waits for 105.
#[test]
fn a_lift(rt: HostRuntime) -> Result<(), Fail> {
    let plan = two_sectors(rt.alloc(), 0, (128, 256, 1), (0, 256, 0), 88, 1)?;
    let level = level_of(rt.alloc(), &plan)?;
    if level.sector_count() < 2 || level.line_count() == 0 {
        return Err(Fail::from("the level has two sectors and a line"));
    }
    let tables = tables_of(rt.alloc(), &[])?;
    let mut world = started(rt.alloc(), &level, &tables)?;
    try_lift(&rt, rt.alloc(), &level, &tables, &mut world)
}
