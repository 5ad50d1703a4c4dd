//! Levels, tables and worlds.
ghost use Rattle.std.specs.Prelude.{◌<◌, IfOk, OnOk};
ghost use Rattle.special_tests.specs.Ready.{IsReady};

use cow_world::{PlayFault, Player, World};
use doom_edge::Steps;
use fixed_angle::PlayTables;
use level_start::start;
use line_specials::{Crossed, cross_line};
use lmp_codec::read_demo;
use map_geometry::Level;
use map_load::load;
use sample_inputs::{HEADER, MapPlan, PlanKind, PlanThing, demo, play_tables_of, two_sectors, wad};
use std::alloc::Global;
use std::test::Fail;
use wad_lumps::Wad;

pub(crate) const UNIT: i32 = 65536;

/// The tag of the border.
pub(crate) const TAG: i16 = 7;

/// A line of the strip.
#[derive(Clone, Copy)]
pub(crate) enum Line {
    /// Line 0, between the sectors; its front is in the west.
    Border,
    /// Line 1, in the west: it has no back, and the tag 0.
    Wall,
}

impl Line {
    pub(crate) fn number(self) -> u32
        ensures { result < 2 }
    {
        match self {
            Line::Border => 0,
            Line::Wall => 1,
        }
    }
}

/// A side of a line.
#[derive(Clone, Copy)]
pub(crate) enum Side {
    Front,
    Back,
}

impl Side {
    pub(crate) fn number(self) -> u32
        ensures { result < 2 }
    {
        match self {
            Side::Front => 0,
            Side::Back => 1,
        }
    }
}

/// The kind of the things to which teleporters lead, of one that is touched, and of one that can be hurt.
pub(crate) const MARKER: u16 = 14;

pub(crate) const KEY: u16 = 5;

pub(crate) const BARREL: u16 = 2035;

fn level_of(alloc: Global, plan: &MapPlan) -> Result<Level, Fail> {
    let wad = Wad::read(wad(alloc, plan)?).map_err(|_| "the file is a WAD")?;
    let spans = wad.map(alloc, 1, 1).map_err(|_| "the map is there")?;
    let level = load(alloc, &wad, &spans).map_err(|_| "the level has no fault")?;
    Ok(level)
}

/// The level of two sectors with these tags, which meet in line 0 at x = 48: the west 0 to 128 units high, with a light of
/// 128, and the east 24 to 96 units high, with a light of 160. The player stands in the west, at (0, 0).
pub(crate) fn strip(
    alloc: Global,
    west: i16,
    east: i16,
    things: &[PlanThing],
) -> Result<Level, Fail> {
    let mut plan = two_sectors(alloc, 48, (0, 128, west), (24, 96, east), 0, TAG)?;
    for sector in &mut plan.sectors {
        if sector.floor > 0 {
            sector.light = 160;
        }
    }
    plan.things.extend_from_slice(things)?;
    level_of(alloc, &plan)
}

/// A thing of the map; its angle is in degrees.
pub(crate) fn thing(number: u16, x: i16, y: i16, angle: i16) -> PlanThing {
    PlanThing {
        number,
        x,
        y,
        angle,
        options: 7,
    }
}

/// A kind of 20 units' radius and 16 units' height, whose first state never ends.
fn kind(number: u16, flags: u16) -> PlanKind {
    PlanKind {
        number,
        flags,
        radius: 1_310_720,
        height: 1_048_576,
        first: 0,
    }
}

/// Tables with what teleporters lead to, which hangs here, so that its height isn't that of its floor; and with something
/// to touch, and something solid that can be hurt.
pub(crate) fn tables(alloc: Global) -> Result<PlayTables, Fail> {
    let kinds = [kind(MARKER, 8 + 32), kind(KEY, 1), kind(BARREL, 2 + 4)];
    let tables = PlayTables::read(alloc, &play_tables_of(alloc, &kinds)?).map_err(
        |_| "the tables have no fault",
    )?;
    Ok(tables)
}

/// How a level starts.
pub(crate) fn started(alloc: Global, level: &Level, tables: &PlayTables) -> Result<World, Fail>
    ensures { IfOk result (IsReady level.now tables.now) }
{
    let demo = read_demo(alloc, &demo(alloc, &HEADER, &[])?).map_err(|_| "it is a demo")?;
    if level.sector_count() < 2 || level.line_count() < 2 {
        return Err(Fail::from("the level has two sectors and two lines"));
    }
    match start(alloc, level, tables, &demo.header) {
        Ok(world) => Ok(world),
        Err(_) => Err(Fail::from("the level starts")),
    }
}

/// Gives a line a special, and the player keys.
pub(crate) fn prepare(
    level: &Level,
    tables: &PlayTables,
    world: &mut World,
    line: Line,
    special: u16,
    keys: u8,
) -> Result<(), PlayFault>
    requires { IsReady level.now tables.now world.old }
    ensures { OnOk result (IsReady level.now tables.now world.new) }
{
    let _level = level;
    let _tables = tables;
    let player = world.player();
    world.set_player(Player { keys, ..player });
    world.set_line_special(line.number(), special, &mut Steps::new())?;
    Ok(())
}

/// Crosses a line from a side.
pub(crate) fn cross(
    alloc: Global,
    level: &Level,
    tables: &PlayTables,
    world: &mut World,
    line: Line,
    side: Side,
) -> Result<Crossed, PlayFault>
    requires { IsReady level.now tables.now world.old }
    ensures { OnOk result (IsReady level.now tables.now world.new) }
{
    cross_line(
        alloc,
        level,
        tables,
        world,
        line.number(),
        side.number(),
        &mut Steps::new(),
    )
}
