// Floors that lines start by tag.
ghost use Rattle.std.specs.Prelude.{◌≡◌, ◌<◌, ◌≤◌, length, OnOk};
ghost use Rattle.cow_world.specs.Fits.{FitsLevel, KeepsFit};
ghost use Rattle.cow_world.specs.Outcome.{Plays};
ghost use Rattle.mover_start.specs.Begun.{started_in, started_all};
ghost use Rattle.mover_start.specs.Floors.{above_highest, floor_dest, floor_begun, floor_started, do_floor_of};

use crate::begins::{begin, number_of};
use cow_world::{FloorKind, PlayFault, Thinker, World};
use doom_edge::{Memory, Steps};
use map_geometry::{Level, sum};

/// How far a floor is raised by the kind that says so.
const RAISE: i32 = 24 * 65536;

/// How far above the highest floor around a turbo floor comes to rest.
const TURBO_GAP: i32 = 8 * 65536;

/// Starts a floor in each sector with the line's tag that names no mover, in the order of sectors. True exactly where
/// one started. After `Memory` nothing is said of the world.
#[tactic(auto, unfolding(crate::specs::Floors::do_floor_of))]
pub fn do_floor(
    level: &Level,
    world: &mut World,
    line: u32,
    kind: FloorKind,
    steps: &mut Steps,
) -> Result<bool, PlayFault>
    requires fits { FitsLevel level.now world.old }
    requires line { line < length level.now.lines }
    ensures plays { Plays result world.new (do_floor_of level.now world.old line kind) }
    ensures fits { OnOk result (KeepsFit world.old world.new) }

    ensures tics { steps.new.tics ≡ steps.old.tics }
    ensures pages { steps.old.pages ≤ steps.new.pages }
{
    let tag = level.line(line as usize).tag;
    start_all(level, world, tag, kind, steps)
}

// Starts a floor in each sector with a tag that names no mover.
fn start_all(
    level: &Level,
    world: &mut World,
    tag: i16,
    kind: FloorKind,
    steps: &mut Steps,
) -> Result<bool, PlayFault>
    requires fits { FitsLevel level.now world.old }
    ensures plays { Plays result world.new (started_all (floor_started kind level.now) level.now tag world.old) }
    ensures fits { OnOk result (KeepsFit world.old world.new) }

    ensures tics { steps.new.tics ≡ steps.old.tics }
    ensures pages { steps.old.pages ≤ steps.new.pages }
{
    let mut started = false;
    let mut from = 0;
    while let Some(sector) = level.next_with_tag(from, tag) {
        let number = number_of(world, sector);
        started = start_in(level, world, number, kind, started, steps)?;
        from = sector + 1;
    }
    Ok(started)
}

// Starts a floor in a sector that names no mover. `before` says whether one started before it.
#[tactic(auto, using(cow_world::proofs::Keeps::keeps_same))]
fn start_in(
    level: &Level,
    world: &mut World,
    sector: u32,
    kind: FloorKind,
    before: bool,
    steps: &mut Steps,
) -> Result<bool, PlayFault>
    requires fits { FitsLevel level.now world.old }
    requires there { sector < length level.now.sectors }
    ensures plays { Plays result world.new (started_in (floor_started kind level.now) sector (world.old, before)) }
    ensures fits { OnOk result (KeepsFit world.old world.new) }

    ensures tics { steps.new.tics ≡ steps.old.tics }
    ensures pages { steps.old.pages ≤ steps.new.pages }
{
    if let Some(_) = world.sector(sector).mover {
        return Ok(before);
    }
    let dest = floor_dest(level, world, sector, kind);
    let floor = Thinker::Floor { sector, kind, dest };
    begin(level, world, sector, floor, steps)?;
    Ok(true)
}

// Where a floor comes to rest.
fn floor_dest(level: &Level, world: &World, sector: u32, kind: FloorKind) -> i32
    requires fits { FitsLevel level.now world.now }
    requires there { sector < length level.now.sectors }
    ensures { result ≡ floor_dest kind level.now world.now sector }
{
    let own = world.sector(sector);
    match kind {
        FloorKind::ToHighest => world.highest_floor_around(level, sector),
        FloorKind::ToLowest => world.lowest_floor_around(level, sector),
        FloorKind::TurboLower => {
            above_highest(world.highest_floor_around(level, sector), own.floor)
        }
        FloorKind::ToCeiling => world.lowest_ceiling_around(level, sector).min(own.ceiling),
        FloorKind::RaiseBy24 => sum(own.floor, RAISE),
        FloorKind::ToNext | FloorKind::TurboToNext => world.next_floor_around(level, sector),
    }
}

// Where a turbo floor comes to rest, by the highest floor around it and its own.
fn above_highest(highest: i32, own: i32) -> i32
    ensures { result ≡ above_highest highest own }
{
    if highest == own {
        return highest;
    }
    sum(highest, TURBO_GAP)
}
