//! Doors in a tic.
ghost use Rattle.std.specs.Prelude.{◌≡◌, ◌≤◌, length, false, Some, OnOk};
ghost use Rattle.cow_world.specs.Flat.{parts};
ghost use Rattle.cow_world.specs.Fits.{Fits};
ghost use Rattle.cow_world.specs.Outcome.{Moves};
ghost use Rattle.cow_world.specs.declared.records.DoorPhase.TheVariants.{Wait};
ghost use Rattle.mover_run.specs.Movers.{IsMover};
ghost use Rattle.mover_run.specs.Doors.{door_speed, at_top, at_bottom, after_wait, when_blocked, put_door, door_ended, first_over, counted, door_first, door_wait, door_raised, door_up_to, door_lowered, door_down, door_run};

use crate::movers::{end_mover, is_over};
use crate::planes::{Moved, move_plane};
use cow_world::{DoorKind, DoorPhase, Plane, PlayFault, Thinker, World};
use doom_edge::{Memory, Steps};
use fixed_angle::PlayTables;
use game_trait::Halt;
use map_geometry::{Level, difference};
use std::alloc::Global;

/// A door, taken apart: its place among the thinkers, its sector, kind and phase, its top, and what is left of a wait.
#[derive(Clone, Copy)]
pub struct MovingDoor {
    pub place: u32,
    pub sector: u32,
    pub kind: DoorKind,
    pub phase: DoorPhase,
    pub top: Option<i32>,
    pub count: i32,
}

/// What a door does at an end of its way.
#[derive(Clone, Copy)]
pub enum DoorEnd {
    /// Nothing.
    Stays,
    /// It waits for so many tics.
    Waits(i32),
    Ends,
}

/// How fast doors are, in fixed point a tic.
const SLOW: i32 = 2 * 65536;

const BLAZING: i32 = 8 * 65536;

/// How long a door stays open, and one that closes for a while closed, in tics.
const OPEN_TICS: i32 = 150;

const CLOSED_TICS: i32 = 1050;

/// One tic of a door. It halts (`Unset`) where the door goes up to a top that was never set. After a halt or want of
/// memory nothing is said of the world.
pub fn run_door(
    alloc: Global,
    level: &Level,
    tables: &PlayTables,
    world: &mut World,
    door: &MovingDoor,
    steps: &mut Steps,
) -> Result<(), PlayFault>
    requires fits { Fits level.now tables.now world.old }
    requires mover { IsMover level.now world.old door.now.place door.now.sector false }
    ensures moves { Moves result world.new (door_run door.now.phase level.now tables.now door.now world.old) }
    ensures fits { OnOk result (Fits level.now tables.now world.new) }
    ensures many { OnOk result (length (parts world.new).thinkers ≡ length (parts world.old).thinkers) }

    ensures tics { steps.new.tics ≡ steps.old.tics }
    ensures pages { steps.old.pages ≤ steps.new.pages }
{
    match door.phase {
        DoorPhase::First => Ok(wait_first(level, tables, world, door, steps)?),
        DoorPhase::Up => raise_door(alloc, level, tables, world, door, steps),
        DoorPhase::Wait => Ok(wait_door(level, tables, world, door, steps)?),
        DoorPhase::Down => lower_door(alloc, level, tables, world, door, steps),
    }
}

// The wait before a door goes up for the first time.
fn wait_first(
    level: &Level,
    tables: &PlayTables,
    world: &mut World,
    door: &MovingDoor,
    steps: &mut Steps,
) -> Result<(), Memory>
    requires fits { Fits level.now tables.now world.old }
    requires mover { IsMover level.now world.old door.now.place door.now.sector false }
    ensures ok { OnOk result (world.new ≡ door_first door.now world.old) }
    ensures fits { OnOk result (Fits level.now tables.now world.new) }
    ensures many { OnOk result (length (parts world.new).thinkers ≡ length (parts world.old).thinkers) }

    ensures tics { steps.new.tics ≡ steps.old.tics }
    ensures pages { steps.old.pages ≤ steps.new.pages }
{
    let less = counted(door);
    if is_over(less.count) {
        return put_door(level, tables, world, &first_over(&less), steps);
    }
    put_door(level, tables, world, &less, steps)
}

// The door with one tic less to wait.
fn counted(door: &MovingDoor) -> MovingDoor
    ensures { result ≡ counted door.now }
{
    MovingDoor {
        count: difference(door.count, 1),
        ..*door
    }
}

// A door whose first wait is over: one that waited for five minutes goes on as a normal one.
fn first_over(door: &MovingDoor) -> MovingDoor
    ensures { result ≡ first_over door.now door.now.kind }
{
    match door.kind {
        DoorKind::Raise5 => MovingDoor {
            kind: DoorKind::Normal,
            phase: DoorPhase::Up,
            ..*door
        },
        DoorKind::Normal
        | DoorKind::BlazeRaise
        | DoorKind::Open
        | DoorKind::BlazeOpen
        | DoorKind::Close
        | DoorKind::BlazeClose
        | DoorKind::Close30 => *door,
    }
}

// A wait of a door.
fn wait_door(
    level: &Level,
    tables: &PlayTables,
    world: &mut World,
    door: &MovingDoor,
    steps: &mut Steps,
) -> Result<(), Memory>
    requires fits { Fits level.now tables.now world.old }
    requires mover { IsMover level.now world.old door.now.place door.now.sector false }
    ensures ok { OnOk result (world.new ≡ door_wait door.now world.old) }
    ensures fits { OnOk result (Fits level.now tables.now world.new) }
    ensures many { OnOk result (length (parts world.new).thinkers ≡ length (parts world.old).thinkers) }

    ensures tics { steps.new.tics ≡ steps.old.tics }
    ensures pages { steps.old.pages ≤ steps.new.pages }
{
    let less = counted(door);
    if is_over(less.count) {
        return put_door(
            level,
            tables,
            world,
            &in_phase(&less, after_wait(door.kind)),
            steps,
        );
    }
    put_door(level, tables, world, &less, steps)
}

// The door in another phase.
fn in_phase(door: &MovingDoor, phase: DoorPhase) -> MovingDoor
    ensures { result ≡ record door.now { phase = phase } }
{
    MovingDoor { phase, ..*door }
}

// A door on its way up.
fn raise_door(
    alloc: Global,
    level: &Level,
    tables: &PlayTables,
    world: &mut World,
    door: &MovingDoor,
    steps: &mut Steps,
) -> Result<(), PlayFault>
    requires fits { Fits level.now tables.now world.old }
    requires mover { IsMover level.now world.old door.now.place door.now.sector false }
    ensures moves { Moves result world.new (door_up_to door.now.top level.now tables.now door.now world.old) }
    ensures fits { OnOk result (Fits level.now tables.now world.new) }
    ensures many { OnOk result (length (parts world.new).thinkers ≡ length (parts world.old).thinkers) }

    ensures tics { steps.new.tics ≡ steps.old.tics }
    ensures pages { steps.old.pages ≤ steps.new.pages }
{
    match door.top {
        Some(top) => raise_to(alloc, level, tables, world, door, top, steps),
        None => Err(PlayFault::Halt(Halt::Unset)),
    }
}

// A door on its way up to a height.
fn raise_to(
    alloc: Global,
    level: &Level,
    tables: &PlayTables,
    world: &mut World,
    door: &MovingDoor,
    top: i32,
    steps: &mut Steps,
) -> Result<(), PlayFault>
    requires fits { Fits level.now tables.now world.old }
    requires mover { IsMover level.now world.old door.now.place door.now.sector false }
    ensures moves { Moves result world.new (door_up_to (Some top) level.now tables.now door.now world.old) }
    ensures fits { OnOk result (Fits level.now tables.now world.new) }
    ensures many { OnOk result (length (parts world.new).thinkers ≡ length (parts world.old).thinkers) }

    ensures tics { steps.new.tics ≡ steps.old.tics }
    ensures pages { steps.old.pages ≤ steps.new.pages }
{
    let speed = door_speed(door.kind);
    let plane = Plane::Ceiling;
    let moved = move_plane(
        alloc,
        level,
        tables,
        world,
        door.sector,
        plane,
        speed,
        top,
        true,
        steps,
    )?;
    Ok(raised(level, tables, world, door, moved, steps)?)
}

// What the move up of its ceiling makes of a door.
fn raised(
    level: &Level,
    tables: &PlayTables,
    world: &mut World,
    door: &MovingDoor,
    moved: Moved,
    steps: &mut Steps,
) -> Result<(), Memory>
    requires fits { Fits level.now tables.now world.old }
    requires mover { IsMover level.now world.old door.now.place door.now.sector false }
    ensures ok { OnOk result (world.new ≡ door_raised moved door.now world.old) }
    ensures fits { OnOk result (Fits level.now tables.now world.new) }
    ensures many { OnOk result (length (parts world.new).thinkers ≡ length (parts world.old).thinkers) }

    ensures tics { steps.new.tics ≡ steps.old.tics }
    ensures pages { steps.old.pages ≤ steps.new.pages }
{
    match moved {
        Moved::Past => end_door(level, tables, world, door, at_top(door.kind), steps),
        Moved::Going | Moved::Blocked => Ok(()),
    }
}

// A door on its way down.
fn lower_door(
    alloc: Global,
    level: &Level,
    tables: &PlayTables,
    world: &mut World,
    door: &MovingDoor,
    steps: &mut Steps,
) -> Result<(), PlayFault>
    requires fits { Fits level.now tables.now world.old }
    requires mover { IsMover level.now world.old door.now.place door.now.sector false }
    ensures moves { Moves result world.new (door_down level.now tables.now door.now world.old) }
    ensures fits { OnOk result (Fits level.now tables.now world.new) }
    ensures many { OnOk result (length (parts world.new).thinkers ≡ length (parts world.old).thinkers) }

    ensures tics { steps.new.tics ≡ steps.old.tics }
    ensures pages { steps.old.pages ≤ steps.new.pages }
{
    let speed = door_speed(door.kind);
    let floor = world.sector(door.sector).floor;
    let plane = Plane::Ceiling;
    let moved = move_plane(
        alloc,
        level,
        tables,
        world,
        door.sector,
        plane,
        speed,
        floor,
        false,
        steps,
    )?;
    Ok(lowered(level, tables, world, door, moved, steps)?)
}

// What the move down of its ceiling makes of a door.
fn lowered(
    level: &Level,
    tables: &PlayTables,
    world: &mut World,
    door: &MovingDoor,
    moved: Moved,
    steps: &mut Steps,
) -> Result<(), Memory>
    requires fits { Fits level.now tables.now world.old }
    requires mover { IsMover level.now world.old door.now.place door.now.sector false }
    ensures ok { OnOk result (world.new ≡ door_lowered moved door.now world.old) }
    ensures fits { OnOk result (Fits level.now tables.now world.new) }
    ensures many { OnOk result (length (parts world.new).thinkers ≡ length (parts world.old).thinkers) }

    ensures tics { steps.new.tics ≡ steps.old.tics }
    ensures pages { steps.old.pages ≤ steps.new.pages }
{
    match moved {
        Moved::Past => end_door(level, tables, world, door, at_bottom(door.kind), steps),
        Moved::Going => Ok(()),
        Moved::Blocked => {
            let turned = in_phase(door, when_blocked(door.kind));
            put_door(level, tables, world, &turned, steps)
        }
    }
}

// A door at an end of its way.
fn end_door(
    level: &Level,
    tables: &PlayTables,
    world: &mut World,
    door: &MovingDoor,
    end: DoorEnd,
    steps: &mut Steps,
) -> Result<(), Memory>
    requires fits { Fits level.now tables.now world.old }
    requires mover { IsMover level.now world.old door.now.place door.now.sector false }
    ensures ok { OnOk result (world.new ≡ door_ended end door.now world.old) }
    ensures fits { OnOk result (Fits level.now tables.now world.new) }
    ensures many { OnOk result (length (parts world.new).thinkers ≡ length (parts world.old).thinkers) }

    ensures tics { steps.new.tics ≡ steps.old.tics }
    ensures pages { steps.old.pages ≤ steps.new.pages }
{
    match end {
        DoorEnd::Stays => Ok(()),
        DoorEnd::Waits(count) => put_door(level, tables, world, &waiting(door, count), steps),
        DoorEnd::Ends => end_mover(level, tables, world, door.place, door.sector, false, steps),
    }
}

// The door, waiting for so many tics.
fn waiting(door: &MovingDoor, count: i32) -> MovingDoor
    ensures { result ≡ record door.now { phase = Wait; count = count } }
{
    MovingDoor {
        phase: DoorPhase::Wait,
        count,
        ..*door
    }
}

// The door stands among the thinkers like this.
fn put_door(
    level: &Level,
    tables: &PlayTables,
    world: &mut World,
    door: &MovingDoor,
    steps: &mut Steps,
) -> Result<(), Memory>
    requires fits { Fits level.now tables.now world.old }
    requires mover { IsMover level.now world.old door.now.place door.now.sector false }
    ensures ok { OnOk result (world.new ≡ put_door door.now world.old) }
    ensures fits { OnOk result (Fits level.now tables.now world.new) }
    ensures many { OnOk result (length (parts world.new).thinkers ≡ length (parts world.old).thinkers) }

    ensures tics { steps.new.tics ≡ steps.old.tics }
    ensures pages { steps.old.pages ≤ steps.new.pages }
{
    // The level and the tables are there for the contract alone.
    let _level = level;
    let _tables = tables;
    let to = Thinker::Door {
        sector: door.sector,
        kind: door.kind,
        phase: door.phase,
        top: door.top,
        count: door.count,
    };
    world.set_thinker(door.place, to, steps)
}

// How fast a door is.
fn door_speed(kind: DoorKind) -> i32
    ensures { result ≡ door_speed kind }
{
    match kind {
        DoorKind::Normal
        | DoorKind::Open
        | DoorKind::Close
        | DoorKind::Close30
        | DoorKind::Raise5 => SLOW,
        DoorKind::BlazeRaise | DoorKind::BlazeOpen | DoorKind::BlazeClose => BLAZING,
    }
}

// What a door does at its top.
fn at_top(kind: DoorKind) -> DoorEnd
    ensures { result ≡ at_top kind }
{
    match kind {
        DoorKind::Normal | DoorKind::BlazeRaise => DoorEnd::Waits(OPEN_TICS),
        DoorKind::Open | DoorKind::BlazeOpen | DoorKind::Close30 => DoorEnd::Ends,
        DoorKind::Close | DoorKind::BlazeClose | DoorKind::Raise5 => DoorEnd::Stays,
    }
}

// What a door does at its bottom.
fn at_bottom(kind: DoorKind) -> DoorEnd
    ensures { result ≡ at_bottom kind }
{
    match kind {
        DoorKind::Normal | DoorKind::BlazeRaise | DoorKind::Close | DoorKind::BlazeClose =>
            DoorEnd::Ends,
        DoorKind::Open | DoorKind::BlazeOpen | DoorKind::Raise5 => DoorEnd::Stays,
        DoorKind::Close30 => DoorEnd::Waits(CLOSED_TICS),
    }
}

// Where a door goes after a wait.
fn after_wait(kind: DoorKind) -> DoorPhase
    ensures { result ≡ after_wait kind }
{
    match kind {
        DoorKind::Normal | DoorKind::BlazeRaise => DoorPhase::Down,
        DoorKind::Open
        | DoorKind::BlazeOpen
        | DoorKind::Close
        | DoorKind::BlazeClose
        | DoorKind::Raise5 => DoorPhase::Wait,
        DoorKind::Close30 => DoorPhase::Up,
    }
}

// Where a door goes that is blocked on its way down.
fn when_blocked(kind: DoorKind) -> DoorPhase
    ensures { result ≡ when_blocked kind }
{
    match kind {
        DoorKind::Normal
        | DoorKind::BlazeRaise
        | DoorKind::Open
        | DoorKind::BlazeOpen
        | DoorKind::Close30
        | DoorKind::Raise5 => DoorPhase::Up,
        DoorKind::Close | DoorKind::BlazeClose => DoorPhase::Down,
    }
}
