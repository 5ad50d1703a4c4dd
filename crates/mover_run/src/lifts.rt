//! Lifts in a tic.
ghost use Rattle.std.specs.Prelude.{◌≡◌, ◌≤◌, length, true, Some, OnOk};
ghost use Rattle.cow_world.specs.Flat.{parts};
ghost use Rattle.cow_world.specs.Fits.{Fits};
ghost use Rattle.cow_world.specs.Outcome.{Moves};
ghost use Rattle.mover_run.specs.Movers.{IsMover};
ghost use Rattle.mover_run.specs.Lifts.{lift_speed, goes_on, put_lift, waits_in, lift_ended, lift_raised, lift_up, lift_lowered, lift_down_to, way_from, lift_counted, lift_over, lift_wait, lift_phase, lift_run};

use crate::movers::{end_mover, is_over};
use crate::planes::{Moved, move_plane};
use cow_world::{LiftPhase, Plane, PlatKind, PlayFault, Thinker, World};
use doom_edge::{Memory, Steps};
use fixed_angle::PlayTables;
use game_trait::Halt;
use map_geometry::{Level, difference};
use std::alloc::Global;

/// A lift, taken apart: its place among the thinkers, its sector, kind and phase, whether it is stopped, the ends of
/// its way, how long it waits, and what is left of a wait.
#[derive(Clone, Copy)]
pub struct MovingLift {
    pub place: u32,
    pub sector: u32,
    pub kind: PlatKind,
    pub phase: LiftPhase,
    pub stopped: bool,
    pub low: Option<i32>,
    pub high: i32,
    pub wait: i32,
    pub count: i32,
}

/// How fast lifts are, in fixed point a tic.
const FAST: i32 = 4 * 65536;

const BLAZING: i32 = 8 * 65536;

const SLOW: i32 = 65536;

const SLOWEST: i32 = 65536 / 2;

/// One tic of a lift; one that is stopped does nothing. It halts (`Unset`) where the lift needs a lower end that was
/// never set: on its way down, and at the end of a wait. After a halt or want of memory nothing is said of the world.
pub fn run_lift(
    alloc: Global,
    level: &Level,
    tables: &PlayTables,
    world: &mut World,
    lift: &MovingLift,
    steps: &mut Steps,
) -> Result<(), PlayFault>
    requires fits { Fits level.now tables.now world.old }
    requires mover { IsMover level.now world.old lift.now.place lift.now.sector true }
    ensures moves { Moves result world.new (lift_run level.now tables.now lift.now world.old) }
    ensures fits { OnOk result (Fits level.now tables.now world.new) }
    ensures many { OnOk result (length (parts world.new).thinkers ≡ length (parts world.old).thinkers) }

    ensures tics { steps.new.tics ≡ steps.old.tics }
    ensures pages { steps.old.pages ≤ steps.new.pages }
{
    if lift.stopped {
        return Ok(());
    }
    match lift.phase {
        LiftPhase::Up => raise_lift(alloc, level, tables, world, lift, steps),
        LiftPhase::Down => lower_lift(alloc, level, tables, world, lift, steps),
        LiftPhase::Wait => wait_lift(level, tables, world, lift, steps),
    }
}

// A lift on its way up.
fn raise_lift(
    alloc: Global,
    level: &Level,
    tables: &PlayTables,
    world: &mut World,
    lift: &MovingLift,
    steps: &mut Steps,
) -> Result<(), PlayFault>
    requires fits { Fits level.now tables.now world.old }
    requires mover { IsMover level.now world.old lift.now.place lift.now.sector true }
    ensures moves { Moves result world.new (lift_up level.now tables.now lift.now world.old) }
    ensures fits { OnOk result (Fits level.now tables.now world.new) }
    ensures many { OnOk result (length (parts world.new).thinkers ≡ length (parts world.old).thinkers) }

    ensures tics { steps.new.tics ≡ steps.old.tics }
    ensures pages { steps.old.pages ≤ steps.new.pages }
{
    let speed = lift_speed(lift.kind);
    let plane = Plane::Floor;
    let moved = move_plane(
        alloc,
        level,
        tables,
        world,
        lift.sector,
        plane,
        speed,
        lift.high,
        true,
        steps,
    )?;
    Ok(raised(level, tables, world, lift, moved, steps)?)
}

// What its move up makes of a lift.
fn raised(
    level: &Level,
    tables: &PlayTables,
    world: &mut World,
    lift: &MovingLift,
    moved: Moved,
    steps: &mut Steps,
) -> Result<(), Memory>
    requires fits { Fits level.now tables.now world.old }
    requires mover { IsMover level.now world.old lift.now.place lift.now.sector true }
    ensures ok { OnOk result (world.new ≡ lift_raised moved lift.now world.old) }
    ensures fits { OnOk result (Fits level.now tables.now world.new) }
    ensures many { OnOk result (length (parts world.new).thinkers ≡ length (parts world.old).thinkers) }

    ensures tics { steps.new.tics ≡ steps.old.tics }
    ensures pages { steps.old.pages ≤ steps.new.pages }
{
    match moved {
        Moved::Past => end_lift(level, tables, world, lift, steps),
        Moved::Going => Ok(()),
        Moved::Blocked => put_lift(level, tables, world, &waiting(lift, LiftPhase::Down), steps),
    }
}

// A lift at its upper end.
fn end_lift(
    level: &Level,
    tables: &PlayTables,
    world: &mut World,
    lift: &MovingLift,
    steps: &mut Steps,
) -> Result<(), Memory>
    requires fits { Fits level.now tables.now world.old }
    requires mover { IsMover level.now world.old lift.now.place lift.now.sector true }
    ensures ok { OnOk result (world.new ≡ lift_ended lift.now world.old) }
    ensures fits { OnOk result (Fits level.now tables.now world.new) }
    ensures many { OnOk result (length (parts world.new).thinkers ≡ length (parts world.old).thinkers) }

    ensures tics { steps.new.tics ≡ steps.old.tics }
    ensures pages { steps.old.pages ≤ steps.new.pages }
{
    if goes_on(lift.kind) {
        return put_lift(level, tables, world, &waiting(lift, LiftPhase::Wait), steps);
    }
    end_mover(level, tables, world, lift.place, lift.sector, true, steps)
}

// The lift in a phase, with all of its wait before it.
fn waiting(lift: &MovingLift, phase: LiftPhase) -> MovingLift
    ensures { result ≡ record lift.now { phase = phase; count = lift.now.wait } }
{
    MovingLift {
        phase,
        count: lift.wait,
        ..*lift
    }
}

// A lift on its way down.
fn lower_lift(
    alloc: Global,
    level: &Level,
    tables: &PlayTables,
    world: &mut World,
    lift: &MovingLift,
    steps: &mut Steps,
) -> Result<(), PlayFault>
    requires fits { Fits level.now tables.now world.old }
    requires mover { IsMover level.now world.old lift.now.place lift.now.sector true }
    ensures moves { Moves result world.new (lift_down_to lift.now.low level.now tables.now lift.now world.old) }
    ensures fits { OnOk result (Fits level.now tables.now world.new) }
    ensures many { OnOk result (length (parts world.new).thinkers ≡ length (parts world.old).thinkers) }

    ensures tics { steps.new.tics ≡ steps.old.tics }
    ensures pages { steps.old.pages ≤ steps.new.pages }
{
    match lift.low {
        Some(low) => lower_to(alloc, level, tables, world, lift, low, steps),
        None => Err(PlayFault::Halt(Halt::Unset)),
    }
}

// A lift on its way down to a height.
fn lower_to(
    alloc: Global,
    level: &Level,
    tables: &PlayTables,
    world: &mut World,
    lift: &MovingLift,
    low: i32,
    steps: &mut Steps,
) -> Result<(), PlayFault>
    requires fits { Fits level.now tables.now world.old }
    requires mover { IsMover level.now world.old lift.now.place lift.now.sector true }
    ensures moves { Moves result world.new (lift_down_to (Some low) level.now tables.now lift.now world.old) }
    ensures fits { OnOk result (Fits level.now tables.now world.new) }
    ensures many { OnOk result (length (parts world.new).thinkers ≡ length (parts world.old).thinkers) }

    ensures tics { steps.new.tics ≡ steps.old.tics }
    ensures pages { steps.old.pages ≤ steps.new.pages }
{
    let speed = lift_speed(lift.kind);
    let plane = Plane::Floor;
    let moved = move_plane(
        alloc,
        level,
        tables,
        world,
        lift.sector,
        plane,
        speed,
        low,
        false,
        steps,
    )?;
    Ok(lowered(level, tables, world, lift, moved, steps)?)
}

// What its move down makes of a lift.
fn lowered(
    level: &Level,
    tables: &PlayTables,
    world: &mut World,
    lift: &MovingLift,
    moved: Moved,
    steps: &mut Steps,
) -> Result<(), Memory>
    requires fits { Fits level.now tables.now world.old }
    requires mover { IsMover level.now world.old lift.now.place lift.now.sector true }
    ensures ok { OnOk result (world.new ≡ lift_lowered moved lift.now world.old) }
    ensures fits { OnOk result (Fits level.now tables.now world.new) }
    ensures many { OnOk result (length (parts world.new).thinkers ≡ length (parts world.old).thinkers) }

    ensures tics { steps.new.tics ≡ steps.old.tics }
    ensures pages { steps.old.pages ≤ steps.new.pages }
{
    match moved {
        Moved::Past => put_lift(level, tables, world, &waiting(lift, LiftPhase::Wait), steps),
        Moved::Going | Moved::Blocked => Ok(()),
    }
}

// A wait of a lift.
fn wait_lift(
    level: &Level,
    tables: &PlayTables,
    world: &mut World,
    lift: &MovingLift,
    steps: &mut Steps,
) -> Result<(), PlayFault>
    requires fits { Fits level.now tables.now world.old }
    requires mover { IsMover level.now world.old lift.now.place lift.now.sector true }
    ensures moves { Moves result world.new (lift_wait lift.now world.old) }
    ensures fits { OnOk result (Fits level.now tables.now world.new) }
    ensures many { OnOk result (length (parts world.new).thinkers ≡ length (parts world.old).thinkers) }

    ensures tics { steps.new.tics ≡ steps.old.tics }
    ensures pages { steps.old.pages ≤ steps.new.pages }
{
    let less = counted(lift);
    if is_over(less.count) {
        return go_from(level, tables, world, lift, steps);
    }
    Ok(put_lift(level, tables, world, &less, steps)?)
}

// The lift with one tic less to wait.
fn counted(lift: &MovingLift) -> MovingLift
    ensures { result ≡ lift_counted lift.now }
{
    MovingLift {
        count: difference(lift.count, 1),
        ..*lift
    }
}

// A lift whose wait is over.
fn go_from(
    level: &Level,
    tables: &PlayTables,
    world: &mut World,
    lift: &MovingLift,
    steps: &mut Steps,
) -> Result<(), PlayFault>
    requires fits { Fits level.now tables.now world.old }
    requires mover { IsMover level.now world.old lift.now.place lift.now.sector true }
    ensures moves { Moves result world.new (lift_over lift.now.low lift.now world.old) }
    ensures fits { OnOk result (Fits level.now tables.now world.new) }
    ensures many { OnOk result (length (parts world.new).thinkers ≡ length (parts world.old).thinkers) }

    ensures tics { steps.new.tics ≡ steps.old.tics }
    ensures pages { steps.old.pages ≤ steps.new.pages }
{
    match lift.low {
        Some(low) => {
            let way = way_from(low, world.sector(lift.sector).floor);
            Ok(put_lift(level, tables, world, &in_phase(&counted(lift), way), steps)?)
        }
        None => Err(PlayFault::Halt(Halt::Unset)),
    }
}

// The lift in another phase.
fn in_phase(lift: &MovingLift, phase: LiftPhase) -> MovingLift
    ensures { result ≡ record lift.now { phase = phase } }
{
    MovingLift { phase, ..*lift }
}

// A lift that is down goes up, and another one down.
fn way_from(low: i32, floor: i32) -> LiftPhase
    ensures { result ≡ way_from low floor }
{
    if floor == low {
        LiftPhase::Up
    } else {
        LiftPhase::Down
    }
}

// The lift stands among the thinkers like this.
fn put_lift(
    level: &Level,
    tables: &PlayTables,
    world: &mut World,
    lift: &MovingLift,
    steps: &mut Steps,
) -> Result<(), Memory>
    requires fits { Fits level.now tables.now world.old }
    requires mover { IsMover level.now world.old lift.now.place lift.now.sector true }
    ensures ok { OnOk result (world.new ≡ put_lift lift.now world.old) }
    ensures fits { OnOk result (Fits level.now tables.now world.new) }
    ensures many { OnOk result (length (parts world.new).thinkers ≡ length (parts world.old).thinkers) }

    ensures tics { steps.new.tics ≡ steps.old.tics }
    ensures pages { steps.old.pages ≤ steps.new.pages }
{
    // The level and the tables are there for the contract alone.
    let _level = level;
    let _tables = tables;
    let to = Thinker::Lift {
        sector: lift.sector,
        kind: lift.kind,
        phase: lift.phase,
        stopped: lift.stopped,
        low: lift.low,
        high: lift.high,
        wait: lift.wait,
        count: lift.count,
    };
    world.set_thinker(lift.place, to, steps)
}

// How fast a lift is.
fn lift_speed(kind: PlatKind) -> i32
    ensures { result ≡ lift_speed kind }
{
    match kind {
        PlatKind::DownWaitUp => FAST,
        PlatKind::Blazing => BLAZING,
        PlatKind::Perpetual => SLOW,
        PlatKind::RaiseBy24 | PlatKind::RaiseBy32 | PlatKind::RaiseToNext => SLOWEST,
    }
}

// Whether a lift goes on when it has come up.
fn goes_on(kind: PlatKind) -> bool
    ensures { result ≡ goes_on kind }
{
    match kind {
        PlatKind::DownWaitUp
        | PlatKind::Blazing
        | PlatKind::RaiseBy24
        | PlatKind::RaiseBy32
        | PlatKind::RaiseToNext => false,
        PlatKind::Perpetual => true,
    }
}
