// Lifts that lines start by tag.
ghost use Rattle.std.specs.Prelude.{◌≡◌, ◌+◌, ◌<◌, ◌≤◌, length, drop, OnOk};
ghost use Rattle.cow_world.specs.Flat.{IsLive, parts};
ghost use Rattle.cow_world.specs.Fits.{Fits, FitsLevel, KeepsFit};
ghost use Rattle.cow_world.specs.Outcome.{Moves, Plays};
ghost use Rattle.cow_world.specs.Thinkers.{is_lift, lift_count};
ghost use Rattle.mover_start.specs.Begun.{started_in, started_all};
ghost use Rattle.mover_start.specs.Lifts.{lift_low, lift_high, lift_wait, random_phase, first_phase, drawn_for, makes_plain, plain_if, lift_of, lift_begun, lift_started, woken_for, do_plat_of};

use crate::begins::{begin, number_of};
use crate::stops::turn_lifts;
use cow_world::{LiftPhase, PlatKind, PlayFault, Sector, Stretch, Thinker, World};
use doom_edge::{Memory, Steps};
use fixed_angle::PlayTables;
use game_trait::Halt;
use map_geometry::{Level, sum};

/// So many lifts may be active, those that are stopped included.
const MOST_LIFTS: u32 = 30;

/// How long a lift waits at an end.
const LIFT_TICS: i32 = 105;

/// Starts a lift in each sector with the line's tag that names no mover, in the order of sectors. A perpetual lift
/// first wakes those of its tag that are stopped. True exactly where one started. After `Memory` nothing is said of the
/// world.
#[tactic(auto, unfolding(crate::specs::Lifts::do_plat_of))]
pub fn do_plat(
    level: &Level,
    tables: &PlayTables,
    world: &mut World,
    line: u32,
    kind: PlatKind,
    steps: &mut Steps,
) -> Result<bool, PlayFault>
    requires fits { Fits level.now tables.now world.old }
    requires line { line < length level.now.lines }
    ensures plays { Plays result world.new (do_plat_of level.now tables.now world.old line kind) }
    ensures fits { OnOk result (Fits level.now tables.now world.new) }
    ensures keeps { OnOk result (KeepsFit world.old world.new) }

    ensures tics { steps.new.tics ≡ steps.old.tics }
    ensures pages { steps.old.pages ≤ steps.new.pages }
{
    let tag = level.line(line as usize).tag;
    wake_for(level, world, tag, kind, steps)?;
    start_all(level, tables, world, tag, kind, steps)
}

// Wakes the stopped lifts of a tag, for a perpetual one.
#[tactic(auto, using(cow_world::proofs::Keeps::keeps_same))]
fn wake_for(
    level: &Level,
    world: &mut World,
    tag: i16,
    kind: PlatKind,
    steps: &mut Steps,
) -> Result<(), Memory>
    requires fits { FitsLevel level.now world.old }
    ensures ok { OnOk result (world.new ≡ woken_for kind level.now tag world.old) }
    ensures fits { OnOk result (KeepsFit world.old world.new) }

    ensures tics { steps.new.tics ≡ steps.old.tics }
    ensures pages { steps.old.pages ≤ steps.new.pages }
{
    match kind {
        PlatKind::Perpetual => {
            turn_lifts(level, world, tag, false, steps)?;
            Ok(())
        }
        PlatKind::DownWaitUp
        | PlatKind::Blazing
        | PlatKind::RaiseBy24
        | PlatKind::RaiseBy32
        | PlatKind::RaiseToNext => Ok(()),
    }
}

// Starts a lift in each sector with a tag that names no mover.
fn start_all(
    level: &Level,
    tables: &PlayTables,
    world: &mut World,
    tag: i16,
    kind: PlatKind,
    steps: &mut Steps,
) -> Result<bool, PlayFault>
    requires fits { FitsLevel level.now world.old }
    ensures plays { Plays result world.new (started_all (lift_started kind level.now tables.now) level.now tag world.old) }
    ensures fits { OnOk result (KeepsFit world.old world.new) }

    ensures tics { steps.new.tics ≡ steps.old.tics }
    ensures pages { steps.old.pages ≤ steps.new.pages }
{
    let mut started = false;
    let mut from = 0;
    while let Some(sector) = level.next_with_tag(from, tag) {
        let number = number_of(world, sector);
        started = start_in(level, tables, world, number, kind, started, steps)?;
        from = sector + 1;
    }
    Ok(started)
}

// Starts a lift in a sector that names no mover. `before` says whether one started before it.
#[tactic(auto, using(cow_world::proofs::Keeps::keeps_same))]
fn start_in(
    level: &Level,
    tables: &PlayTables,
    world: &mut World,
    sector: u32,
    kind: PlatKind,
    before: bool,
    steps: &mut Steps,
) -> Result<bool, PlayFault>
    requires fits { FitsLevel level.now world.old }
    requires there { sector < length level.now.sectors }
    ensures plays { Plays result world.new (started_in (lift_started kind level.now tables.now) sector (world.old, before)) }
    ensures fits { OnOk result (KeepsFit world.old world.new) }

    ensures tics { steps.new.tics ≡ steps.old.tics }
    ensures pages { steps.old.pages ≤ steps.new.pages }
{
    if let Some(_) = world.sector(sector).mover {
        return Ok(before);
    }
    start_lift(level, tables, world, sector, kind, steps)?;
    Ok(true)
}

// Starts a lift in a sector. It halts (`Lifts`) where 30 are active.
fn start_lift(
    level: &Level,
    tables: &PlayTables,
    world: &mut World,
    sector: u32,
    kind: PlatKind,
    steps: &mut Steps,
) -> Result<(), PlayFault>
    requires fits { FitsLevel level.now world.old }
    requires there { sector < length level.now.sectors }
    ensures moves { Moves result world.new (lift_started kind level.now tables.now sector world.old) }
    ensures fits { OnOk result (KeepsFit world.old world.new) }

    ensures tics { steps.new.tics ≡ steps.old.tics }
    ensures pages { steps.old.pages ≤ steps.new.pages }
{
    if lift_count(level, world) >= MOST_LIFTS {
        return Err(PlayFault::Halt(Halt::Lifts));
    }
    begin_lift(level, tables, world, sector, kind, steps)?;
    Ok(())
}

// Begins a lift in a sector, where fewer than 30 are active.
fn begin_lift(
    level: &Level,
    tables: &PlayTables,
    world: &mut World,
    sector: u32,
    kind: PlatKind,
    steps: &mut Steps,
) -> Result<(), Memory>
    requires fits { FitsLevel level.now world.old }
    requires there { sector < length level.now.sectors }
    requires room { lift_count (parts world.old).thinkers < 30 }
    ensures ok { OnOk result (world.new ≡ lift_begun kind level.now tables.now sector world.old) }
    ensures fits { OnOk result (KeepsFit world.old world.new) }

    ensures tics { steps.new.tics ≡ steps.old.tics }
    ensures pages { steps.old.pages ≤ steps.new.pages }
{
    let phase = first_phase(tables, world, kind);
    let lift = lift_in(level, world, sector, kind, phase);
    make_plain(level, world, sector, kind, steps)?;
    begin(level, world, sector, lift, steps)
}

// How many lifts are active, those that are stopped included.
fn lift_count(level: &Level, world: &World) -> u32
    requires { FitsLevel level.now world.now }
    ensures { result ≡ lift_count (parts world.now).thinkers }
{
    // The level is there for the contract alone.
    let _level = level;
    let all = world.thinker_count();
    let mut count = 0;
    let mut from = 0;
    while from < all {
        let live = world.stretch_from(from);
        count += lifts_in(world, &live);
        from = live.end;
    }
    count
}

// How many lifts there are among the thinkers of a stretch.
fn lifts_in(world: &World, stretch: &Stretch) -> u32
    requires live { IsLive world.now }
    requires order { stretch.now.start ≤ stretch.now.end }
    requires there { stretch.now.end ≤ length (parts world.now).thinkers }
    ensures lifts { result + lift_count (drop stretch.now.end (parts world.now).thinkers) ≡ lift_count (drop stretch.now.start (parts world.now).thinkers) }
    ensures few { stretch.now.start + result ≤ stretch.now.end }
{
    let mut count = 0;
    for place in stretch.start..stretch.end {
        if is_lift(&world.thinker(place)) {
            count += 1;
        }
    }
    count
}

fn is_lift(thinker: &Thinker) -> bool
    ensures { result ≡ is_lift thinker.now }
{
    match thinker {
        Thinker::Lift { .. } => true,
        Thinker::Door { .. } | Thinker::Floor { .. } | Thinker::Light { .. } | Thinker::Ended => {
            false
        }
    }
}

// Where a lift begins. A perpetual one draws.
#[tactic(auto, using(cow_world::proofs::Keeps::keeps_same))]
fn first_phase(tables: &PlayTables, world: &mut World, kind: PlatKind) -> LiftPhase
    requires { IsLive world.old }
    ensures phase { result ≡ first_phase kind tables.now world.old }
    ensures ok { world.new ≡ drawn_for kind world.old }
    ensures fits { KeepsFit world.old world.new }
{
    match kind {
        PlatKind::DownWaitUp | PlatKind::Blazing => LiftPhase::Down,
        PlatKind::Perpetual => random_phase(world.draw(tables)),
        PlatKind::RaiseBy24 | PlatKind::RaiseBy32 | PlatKind::RaiseToNext => LiftPhase::Up,
    }
}

fn random_phase(number: u8) -> LiftPhase
    ensures { result ≡ random_phase number }
{
    if number % 2 == 0 {
        return LiftPhase::Up;
    }
    LiftPhase::Down
}

// The lift of a kind, as a sector stands now.
fn lift_in(level: &Level, world: &World, sector: u32, kind: PlatKind, phase: LiftPhase) -> Thinker
    requires fits { FitsLevel level.now world.now }
    requires there { sector < length level.now.sectors }
    ensures { result ≡ lift_of kind phase level.now world.now sector }
{
    Thinker::Lift {
        sector,
        kind,
        phase,
        stopped: false,
        low: lift_low(level, world, sector, kind),
        high: lift_high(level, world, sector, kind),
        wait: lift_wait(kind),
        count: 0,
    }
}

// The lower end of a lift's way. What only goes up has none.
fn lift_low(level: &Level, world: &World, sector: u32, kind: PlatKind) -> Option<i32>
    requires fits { FitsLevel level.now world.now }
    requires there { sector < length level.now.sectors }
    ensures { result ≡ lift_low kind level.now world.now sector }
{
    match kind {
        PlatKind::DownWaitUp | PlatKind::Blazing | PlatKind::Perpetual => {
            Some(world.lowest_floor_around(level, sector))
        }
        PlatKind::RaiseBy24 | PlatKind::RaiseBy32 | PlatKind::RaiseToNext => None,
    }
}

// The upper end.
fn lift_high(level: &Level, world: &World, sector: u32, kind: PlatKind) -> i32
    requires fits { FitsLevel level.now world.now }
    requires there { sector < length level.now.sectors }
    ensures { result ≡ lift_high kind level.now world.now sector }
{
    let own = world.sector(sector).floor;
    match kind {
        PlatKind::DownWaitUp | PlatKind::Blazing => own,
        PlatKind::Perpetual => world.highest_floor_around(level, sector).max(own),
        PlatKind::RaiseBy24 => sum(own, 24 * 65536),
        PlatKind::RaiseBy32 => sum(own, 32 * 65536),
        PlatKind::RaiseToNext => world.next_floor_around(level, sector),
    }
}

fn lift_wait(kind: PlatKind) -> i32
    ensures { result ≡ lift_wait kind }
{
    match kind {
        PlatKind::DownWaitUp | PlatKind::Blazing | PlatKind::Perpetual => LIFT_TICS,
        PlatKind::RaiseBy24 | PlatKind::RaiseBy32 | PlatKind::RaiseToNext => 0,
    }
}

// A lift that goes up to the next floor takes its sector's special.
#[tactic(auto, using(cow_world::proofs::Keeps::keeps_same))]
fn make_plain(
    level: &Level,
    world: &mut World,
    sector: u32,
    kind: PlatKind,
    steps: &mut Steps,
) -> Result<(), Memory>
    requires fits { FitsLevel level.now world.old }
    requires there { sector < length level.now.sectors }
    ensures ok { OnOk result (world.new ≡ plain_if (makes_plain kind) sector world.old) }
    ensures fits { OnOk result (KeepsFit world.old world.new) }

    ensures tics { steps.new.tics ≡ steps.old.tics }
    ensures pages { steps.old.pages ≤ steps.new.pages }
{
    // The level is there for the contract alone.
    let _level = level;
    match kind {
        PlatKind::RaiseToNext => {
            let before = world.sector(sector);
            let after = Sector {
                special: 0,
                ..before
            };
            world.set_sector(sector, after, steps)
        }
        PlatKind::DownWaitUp
        | PlatKind::Blazing
        | PlatKind::Perpetual
        | PlatKind::RaiseBy24
        | PlatKind::RaiseBy32 => Ok(()),
    }
}
