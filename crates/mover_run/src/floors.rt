//! Floors in a tic.
ghost use Rattle.std.specs.Prelude.{◌≡◌, ◌≤◌, length, false, OnOk};
ghost use Rattle.cow_world.specs.Flat.{parts};
ghost use Rattle.cow_world.specs.Fits.{Fits};
ghost use Rattle.cow_world.specs.Outcome.{Moves};
ghost use Rattle.mover_run.specs.Movers.{IsMover};
ghost use Rattle.mover_run.specs.Floors.{floor_speed, floor_rises, floor_moved, floor_run};

use crate::movers::end_mover;
use crate::planes::{Moved, move_plane};
use cow_world::{FloorKind, Plane, PlayFault, World};
use doom_edge::{Memory, Steps};
use fixed_angle::PlayTables;
use map_geometry::Level;
use std::alloc::Global;

/// A floor, taken apart: its place among the thinkers, its sector and kind, and where it comes to rest.
#[derive(Clone, Copy)]
pub struct MovingFloor {
    pub place: u32,
    pub sector: u32,
    pub kind: FloorKind,
    pub dest: i32,
}

/// How fast floors are, in fixed point a tic.
const SLOW: i32 = 65536;

const TURBO: i32 = 4 * 65536;

/// One tic of a floor. After a halt or want of memory nothing is said of the world.
pub fn run_floor(
    alloc: Global,
    level: &Level,
    tables: &PlayTables,
    world: &mut World,
    floor: &MovingFloor,
    steps: &mut Steps,
) -> Result<(), PlayFault>
    requires fits { Fits level.now tables.now world.old }
    requires mover { IsMover level.now world.old floor.now.place floor.now.sector false }
    ensures moves { Moves result world.new (floor_run level.now tables.now floor.now world.old) }
    ensures fits { OnOk result (Fits level.now tables.now world.new) }
    ensures many { OnOk result (length (parts world.new).thinkers ≡ length (parts world.old).thinkers) }

    ensures tics { steps.new.tics ≡ steps.old.tics }
    ensures pages { steps.old.pages ≤ steps.new.pages }
{
    let speed = floor_speed(floor.kind);
    let up = floor_rises(floor.kind);
    let plane = Plane::Floor;
    let moved = move_plane(
        alloc,
        level,
        tables,
        world,
        floor.sector,
        plane,
        speed,
        floor.dest,
        up,
        steps,
    )?;
    Ok(moved_on(level, tables, world, floor, moved, steps)?)
}

// What its move makes of a floor.
fn moved_on(
    level: &Level,
    tables: &PlayTables,
    world: &mut World,
    floor: &MovingFloor,
    moved: Moved,
    steps: &mut Steps,
) -> Result<(), Memory>
    requires fits { Fits level.now tables.now world.old }
    requires mover { IsMover level.now world.old floor.now.place floor.now.sector false }
    ensures ok { OnOk result (world.new ≡ floor_moved moved floor.now world.old) }
    ensures fits { OnOk result (Fits level.now tables.now world.new) }
    ensures many { OnOk result (length (parts world.new).thinkers ≡ length (parts world.old).thinkers) }

    ensures tics { steps.new.tics ≡ steps.old.tics }
    ensures pages { steps.old.pages ≤ steps.new.pages }
{
    match moved {
        Moved::Past => end_mover(
            level,
            tables,
            world,
            floor.place,
            floor.sector,
            false,
            steps,
        ),
        Moved::Going | Moved::Blocked => Ok(()),
    }
}

// How fast a floor is.
fn floor_speed(kind: FloorKind) -> i32
    ensures { result ≡ floor_speed kind }
{
    match kind {
        FloorKind::ToHighest
        | FloorKind::ToLowest
        | FloorKind::ToCeiling
        | FloorKind::RaiseBy24
        | FloorKind::ToNext => SLOW,
        FloorKind::TurboLower | FloorKind::TurboToNext => TURBO,
    }
}

// Whether a floor goes up.
fn floor_rises(kind: FloorKind) -> bool
    ensures { result ≡ floor_rises kind }
{
    match kind {
        FloorKind::ToHighest | FloorKind::ToLowest | FloorKind::TurboLower => false,
        FloorKind::ToCeiling | FloorKind::RaiseBy24 | FloorKind::ToNext | FloorKind::TurboToNext =>
            true,
    }
}
