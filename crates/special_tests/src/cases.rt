//! One number after the other, each on a fork of one world.
ghost use Rattle.std.specs.Prelude.{OnOk};
ghost use Rattle.special_tests.specs.Ready.{IsReady};

use crate::fixtures::{Line, Side, cross, prepare};
use cow_world::{DoorKind, FloorKind, PlatKind, PlayFault, Thinker, World};
use doom_edge::Steps;
use fixed_angle::PlayTables;
use line_specials::use_line;
use map_geometry::Level;
use std::alloc::Global;
use std::process::Abort;
use std::test::Fail;

/// The thinker that was made last.
#[derive(Clone, Copy, Debug, PartialEq, Eq)]
pub(crate) enum Last {
    Nothing,
    Door(DoorKind),
    Floor(FloorKind),
    Lift(PlatKind),
    Strobe,
}

/// What is looked at: how many thinkers there are, the last of them, the lights of both sectors, how the level was
/// left, the line's special, and whether the line acted.
#[derive(Clone, Copy, Debug, PartialEq, Eq)]
pub(crate) struct Seen {
    pub made: u32,
    pub last: Last,
    pub lights: (i16, i16),
    pub exited: u8,
    pub special: u16,
    pub acted: bool,
}

/// A number, the keys that the player holds, and what comes of it.
#[derive(Clone, Copy)]
pub(crate) struct Case {
    pub number: u16,
    pub keys: u8,
    pub ends: Result<Seen, PlayFault>,
}

/// What is done to a line.
#[derive(Clone, Copy)]
pub(crate) enum Way {
    Crossed,
    Used,
}

/// What is done to which line, from which side.
#[derive(Clone, Copy)]
pub(crate) struct Touch {
    pub way: Way,
    pub line: Line,
    pub side: Side,
}

fn touch_line(
    alloc: Global,
    level: &Level,
    tables: &PlayTables,
    world: &mut World,
    touch: Touch,
) -> Result<(), PlayFault>
    requires { IsReady level.now tables.now world.old }
    ensures { OnOk result (IsReady level.now tables.now world.new) }
{
    let Touch { way, line, side } = touch;
    match way {
        Way::Crossed => {
            cross(alloc, level, tables, world, line, side)?;
            Ok(())
        }
        Way::Used => {
            use_line(
                alloc,
                level,
                tables,
                world,
                line.number(),
                side.number(),
                &mut Steps::new(),
            )
        }
    }
}

fn last_of(level: &Level, tables: &PlayTables, world: &World) -> Last
    requires { IsReady level.now tables.now world.now }
{
    let _level = level;
    let _tables = tables;
    let count = world.thinker_count();
    if count == 0 {
        return Last::Nothing;
    }
    match world.thinker(count - 1) {
        Thinker::Door { kind, .. } => Last::Door(kind),
        Thinker::Floor { kind, .. } => Last::Floor(kind),
        Thinker::Lift { kind, .. } => Last::Lift(kind),
        Thinker::Light { .. } => Last::Strobe,
        Thinker::Ended => Last::Nothing,
    }
}

fn look_at(level: &Level, tables: &PlayTables, world: &World, line: Line) -> Seen
    requires { IsReady level.now tables.now world.now }
{
    Seen {
        made: world.thinker_count(),
        last: last_of(level, tables, world),
        lights: (world.sector(0).light, world.sector(1).light),
        exited: world.exited(),
        special: world.line_special(line.number()),
        acted: world.acted(line.number()),
    }
}

fn outcome(
    alloc: Global,
    level: &Level,
    tables: &PlayTables,
    world: &mut World,
    touch: Touch,
    number: u16,
    keys: u8,
) -> Result<Seen, PlayFault>
    requires { IsReady level.now tables.now world.old }
{
    prepare(level, tables, world, touch.line, number, keys)?;
    touch_line(alloc, level, tables, world, touch)?;
    Ok(look_at(level, tables, world, touch.line))
}

fn try_case(
    rt: &impl Abort,
    alloc: Global,
    level: &Level,
    tables: &PlayTables,
    world: &mut World,
    touch: Touch,
    case: &Case,
) -> Result<(), Fail>
    requires { IsReady level.now tables.now world.old }
    ensures { OnOk result (IsReady level.now tables.now world.new) }
{
    let Case { number, keys, ends } = *case;
    let mut fork = world.fork(&mut Steps::new())?;
    let found = outcome(alloc, level, tables, &mut fork, touch, number, keys);
    assert_eq!(rt; found, ends, "{number}");
    Ok(())
}

/// Each case comes out as it should, in a world as it was before any.
pub(crate) fn try_cases(
    rt: &impl Abort,
    alloc: Global,
    level: &Level,
    tables: &PlayTables,
    world: &mut World,
    touch: Touch,
    cases: &[Case],
) -> Result<(), Fail>
    requires { IsReady level.now tables.now world.old }
    ensures { OnOk result (IsReady level.now tables.now world.new) }
{
    for case in cases {
        try_case(rt, alloc, level, tables, world, touch, case)?;
    }
    Ok(())
}
