// Doors that are opened by hand.
ghost use Rattle.std.specs.Prelude.{◌≡◌, ◌<◌, ◌≤◌, length, Some, OnOk};
ghost use Rattle.cow_world.specs.Flat.{parts, line_special_at, sector_at, thinker_at};
ghost use Rattle.map_geometry.specs.Lists.{nth_line};
ghost use Rattle.cow_world.specs.Fits.{FitsLevel, KeepsFit};
ghost use Rattle.cow_world.specs.Outcome.{Plays};
ghost use Rattle.mover_start.specs.Manual.{IsManual, lock_of, is_open_to, manual_kind, stays_open, turned, done_if, opened, opened_at, opened_in, opened_behind, manual_door_of};

use crate::doors::begin_door;
use cow_world::{DoorKind, DoorPhase, PlayFault, Thinker, World, has_bit};
use doom_edge::{Memory, Steps};
use game_trait::Halt;
use map_geometry::Level;

/// The keys, as players hold them.
const BLUE: u16 = 1;

const YELLOW: u16 = 2;

const RED: u16 = 4;

/// Opens the sector behind a line by hand: a door there turns, or a new one starts, also beside one that is there. True
/// exactly where one did. Without a key of the lock nothing happens.
///
/// It halts (`NoBack`) where nothing lies behind the line, and (`Mover`) where a lift or a floor moves the sector.
/// After `Memory` nothing is said of the world.
#[tactic(auto, unfolding(crate::specs::Manual::manual_door_of), using(cow_world::proofs::Keeps::keeps_same))]
pub fn manual_door(
    level: &Level,
    world: &mut World,
    line: u32,
    steps: &mut Steps,
) -> Result<bool, PlayFault>
    requires fits { FitsLevel level.now world.old }
    requires line { line < length level.now.lines }
    requires manual { IsManual (line_special_at world.old line) }
    ensures plays { Plays result world.new (manual_door_of level.now world.old line) }
    ensures fits { OnOk result (KeepsFit world.old world.new) }

    ensures tics { steps.new.tics ≡ steps.old.tics }
    ensures pages { steps.old.pages ≤ steps.new.pages }
{
    let special = world.line_special(line);
    if !is_open_to(world.player().keys, lock_of(special)) {
        return Ok(false);
    }
    open_behind(level, world, line, manual_kind(special), steps)
}

// The key of a lock, or 0.
fn lock_of(special: u16) -> u16
    ensures { result ≡ lock_of special }
{
    match special {
        26 | 32 => BLUE,
        27 | 34 => YELLOW,
        28 | 33 => RED,
        _ => 0,
    }
}

// Whether these keys open a lock.
fn is_open_to(keys: u8, lock: u16) -> bool
    ensures { result ≡ is_open_to keys lock }
{
    lock == 0 || has_bit(u16::from(keys), lock)
}

// The door that a line makes.
fn manual_kind(special: u16) -> DoorKind
    ensures { result ≡ manual_kind special }
{
    match special {
        31 | 32 | 33 | 34 => DoorKind::Open,
        117 => DoorKind::BlazeRaise,
        118 => DoorKind::BlazeOpen,
        _ => DoorKind::Normal,
    }
}

// Whether a door stays open, and its line is done.
fn stays_open(kind: DoorKind) -> bool
    ensures { result ≡ stays_open kind }
{
    match kind {
        DoorKind::Open | DoorKind::BlazeOpen => true,
        DoorKind::Normal
        | DoorKind::BlazeRaise
        | DoorKind::Close
        | DoorKind::BlazeClose
        | DoorKind::Close30
        | DoorKind::Raise5 => false,
    }
}

// Opens the sector behind a line.
fn open_behind(
    level: &Level,
    world: &mut World,
    line: u32,
    makes: DoorKind,
    steps: &mut Steps,
) -> Result<bool, PlayFault>
    requires fits { FitsLevel level.now world.old }
    requires line { line < length level.now.lines }
    ensures plays { Plays result world.new (opened_behind (nth_line level.now line).back makes level.now world.old line) }
    ensures fits { OnOk result (KeepsFit world.old world.new) }

    ensures tics { steps.new.tics ≡ steps.old.tics }
    ensures pages { steps.old.pages ≤ steps.new.pages }
{
    match level.line(line as usize).back {
        Some(sector) => open_in(level, world, line, makes, sector, steps),
        None => Err(PlayFault::Halt(Halt::NoBack(line))),
    }
}

// Opens a sector, by what moves it.
fn open_in(
    level: &Level,
    world: &mut World,
    line: u32,
    makes: DoorKind,
    sector: u32,
    steps: &mut Steps,
) -> Result<bool, PlayFault>
    requires fits { FitsLevel level.now world.old }
    requires line { line < length level.now.lines }
    requires there { sector < length level.now.sectors }
    ensures plays { Plays result world.new (opened_in (sector_at world.old sector).mover makes level.now world.old line sector) }
    ensures fits { OnOk result (KeepsFit world.old world.new) }

    ensures tics { steps.new.tics ≡ steps.old.tics }
    ensures pages { steps.old.pages ≤ steps.new.pages }
{
    match world.sector(sector).mover {
        Some(mover) => open_at(level, world, line, makes, sector, mover, steps),
        None => open_anew(level, world, line, makes, sector, steps),
    }
}

// Opens a sector that a mover moves.
fn open_at(
    level: &Level,
    world: &mut World,
    line: u32,
    makes: DoorKind,
    sector: u32,
    mover: u32,
    steps: &mut Steps,
) -> Result<bool, PlayFault>
    requires fits { FitsLevel level.now world.old }
    requires line { line < length level.now.lines }
    requires there { sector < length level.now.sectors }
    requires mover { mover < length (parts world.old).thinkers }
    ensures plays { Plays result world.new (opened_at (thinker_at world.old mover) mover makes level.now world.old line sector) }
    ensures fits { OnOk result (KeepsFit world.old world.new) }

    ensures tics { steps.new.tics ≡ steps.old.tics }
    ensures pages { steps.old.pages ≤ steps.new.pages }
{
    match world.thinker(mover) {
        Thinker::Door {
            sector: its,
            kind,
            phase,
            top,
            count,
        } => {
            if stays_open(makes) {
                return open_anew(level, world, line, makes, sector, steps);
            }
            let door = Thinker::Door {
                sector: its,
                kind,
                phase: turned(phase),
                top,
                count,
            };
            world.set_thinker(mover, door, steps)?;
            Ok(true)
        }
        Thinker::Lift { .. } | Thinker::Floor { .. } | Thinker::Light { .. } | Thinker::Ended => {
            Err(PlayFault::Halt(Halt::Mover))
        }
    }
}

// What a door does once it is turned.
fn turned(phase: DoorPhase) -> DoorPhase
    ensures { result ≡ turned phase }
{
    match phase {
        DoorPhase::Down => DoorPhase::Up,
        DoorPhase::First | DoorPhase::Up | DoorPhase::Wait => DoorPhase::Down,
    }
}

// Makes a new door in a sector. One that stays open leaves its line without a special.
fn open_anew(
    level: &Level,
    world: &mut World,
    line: u32,
    makes: DoorKind,
    sector: u32,
    steps: &mut Steps,
) -> Result<bool, PlayFault>
    requires fits { FitsLevel level.now world.old }
    requires line { line < length level.now.lines }
    requires there { sector < length level.now.sectors }
    ensures plays { Plays result world.new (opened makes level.now world.old line sector) }
    ensures fits { OnOk result (KeepsFit world.old world.new) }

    ensures tics { steps.new.tics ≡ steps.old.tics }
    ensures pages { steps.old.pages ≤ steps.new.pages }
{
    begin_door(level, world, sector, makes, steps)?;
    end_line(level, world, line, stays_open(makes), steps)?;
    Ok(true)
}

// Takes a line's special, if it is done.
#[tactic(auto, using(cow_world::proofs::Keeps::keeps_same))]
fn end_line(
    level: &Level,
    world: &mut World,
    line: u32,
    is_done: bool,
    steps: &mut Steps,
) -> Result<(), Memory>
    requires fits { FitsLevel level.now world.old }
    requires line { line < length level.now.lines }
    ensures ok { OnOk result (world.new ≡ done_if is_done line world.old) }
    ensures fits { OnOk result (KeepsFit world.old world.new) }

    ensures tics { steps.new.tics ≡ steps.old.tics }
    ensures pages { steps.old.pages ≤ steps.new.pages }
{
    // The level is there for the contract alone.
    let _level = level;
    if !is_done {
        return Ok(());
    }
    world.set_line_special(line, 0, steps)?;
    Ok(())
}
