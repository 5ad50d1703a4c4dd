// Doors that lines start by tag.
ghost use Rattle.std.specs.Prelude.{◌≡◌, ◌<◌, ◌≤◌, false, length, Some, OnOk};
ghost use Rattle.cow_world.specs.Fits.{FitsLevel, KeepsFit};
ghost use Rattle.cow_world.specs.Outcome.{Plays};
ghost use Rattle.cow_world.specs.Thinkers.{moved_by, is_lift};
ghost use Rattle.cow_world.specs.declared.records.Thinker.TheVariants.{Door};
ghost use Rattle.mover_start.specs.Begun.{started_in, started_all};
ghost use Rattle.mover_start.specs.Doors.{door_top, door_of, door_begun, door_started, do_door_of};

use crate::begins::{begin, number_of};
use cow_world::{DoorKind, DoorPhase, PlayFault, Thinker, World};
use doom_edge::{Memory, Steps};
use map_geometry::{Level, difference};

/// How far below the lowest ceiling around a door comes to rest.
const DOOR_GAP: i32 = 4 * 65536;

/// How long a door that opens after five minutes stays closed.
const CLOSED_TICS: i32 = 10500;

/// Starts a door in each sector with the line's tag that names no mover, in the order of sectors. True exactly where
/// one started. After `Memory` nothing is said of the world.
#[tactic(auto, unfolding(crate::specs::Doors::do_door_of))]
pub fn do_door(
    level: &Level,
    world: &mut World,
    line: u32,
    kind: DoorKind,
    steps: &mut Steps,
) -> Result<bool, PlayFault>
    requires fits { FitsLevel level.now world.old }
    requires line { line < length level.now.lines }
    ensures plays { Plays result world.new (do_door_of level.now world.old line kind) }
    ensures fits { OnOk result (KeepsFit world.old world.new) }

    ensures tics { steps.new.tics ≡ steps.old.tics }
    ensures pages { steps.old.pages ≤ steps.new.pages }
{
    let tag = level.line(line as usize).tag;
    start_all(level, world, tag, kind, steps)
}

// Starts a door in each sector with a tag that names no mover.
fn start_all(
    level: &Level,
    world: &mut World,
    tag: i16,
    kind: DoorKind,
    steps: &mut Steps,
) -> Result<bool, PlayFault>
    requires fits { FitsLevel level.now world.old }
    ensures plays { Plays result world.new (started_all (door_started kind level.now) level.now tag world.old) }
    ensures fits { OnOk result (KeepsFit world.old world.new) }

    ensures tics { steps.new.tics ≡ steps.old.tics }
    ensures pages { steps.old.pages ≤ steps.new.pages }
{
    let mut started = false;
    let mut from = 0;
    while let Some(sector) = level.next_with_tag(from, tag) {
        let number = number_of(world, sector);
        started = start_in(level, world, number, kind, started, steps)?;
        from = sector + 1;
    }
    Ok(started)
}

// Starts a door in a sector that names no mover. `before` says whether one started before it.
#[tactic(auto, using(cow_world::proofs::Keeps::keeps_same))]
fn start_in(
    level: &Level,
    world: &mut World,
    sector: u32,
    kind: DoorKind,
    before: bool,
    steps: &mut Steps,
) -> Result<bool, PlayFault>
    requires fits { FitsLevel level.now world.old }
    requires there { sector < length level.now.sectors }
    ensures plays { Plays result world.new (started_in (door_started kind level.now) sector (world.old, before)) }
    ensures fits { OnOk result (KeepsFit world.old world.new) }

    ensures tics { steps.new.tics ≡ steps.old.tics }
    ensures pages { steps.old.pages ≤ steps.new.pages }
{
    if let Some(_) = world.sector(sector).mover {
        return Ok(before);
    }
    begin_door(level, world, sector, kind, steps)?;
    Ok(true)
}

/// Starts a door in a sector, whatever moves it.
pub fn begin_door(
    level: &Level,
    world: &mut World,
    sector: u32,
    kind: DoorKind,
    steps: &mut Steps,
) -> Result<(), Memory>
    requires fits { FitsLevel level.now world.old }
    requires there { sector < length level.now.sectors }
    ensures ok { OnOk result (world.new ≡ door_begun kind level.now sector world.old) }
    ensures fits { OnOk result (KeepsFit world.old world.new) }

    ensures tics { steps.new.tics ≡ steps.old.tics }
    ensures pages { steps.old.pages ≤ steps.new.pages }
{
    let door = door_in(level, world, sector, kind);
    begin(level, world, sector, door, steps)
}

// The door of a kind, as a sector stands now.
fn door_in(level: &Level, world: &World, sector: u32, kind: DoorKind) -> Thinker
    requires fits { FitsLevel level.now world.now }
    requires there { sector < length level.now.sectors }
    ensures door { result ≡ door_of kind level.now world.now sector }
    ensures moves { moved_by result ≡ Some sector }
    ensures no_lift { is_lift result ≡ false }
{
    let top = door_top(level, world, sector);
    match kind {
        DoorKind::Normal | DoorKind::BlazeRaise | DoorKind::Open | DoorKind::BlazeOpen => {
            door(sector, kind, DoorPhase::Up, top, 0)
        }
        DoorKind::Close | DoorKind::BlazeClose => door(sector, kind, DoorPhase::Down, top, 0),
        DoorKind::Close30 => {
            let open = world.sector(sector).ceiling;
            door(sector, kind, DoorPhase::Down, open, 0)
        }
        DoorKind::Raise5 => door(sector, kind, DoorPhase::First, top, CLOSED_TICS),
    }
}

fn door(sector: u32, kind: DoorKind, phase: DoorPhase, top: i32, count: i32) -> Thinker
    ensures { result ≡ Door sector kind phase (Some top) count }
{
    Thinker::Door {
        sector,
        kind,
        phase,
        top: Some(top),
        count,
    }
}

// How far a door opens.
fn door_top(level: &Level, world: &World, sector: u32) -> i32
    requires fits { FitsLevel level.now world.now }
    requires there { sector < length level.now.sectors }
    ensures { result ≡ door_top level.now world.now sector }
{
    difference(world.lowest_ceiling_around(level, sector), DOOR_GAP)
}
