// How lights and the doors of sector specials begin, when a level starts.
ghost use Rattle.std.specs.Prelude.{◌≡◌, ◌<◌, ◌≤◌, length, false, Some, OnOk, OnErr};
ghost use Rattle.map_geometry.specs.Lists.{Lists};
ghost use Rattle.cow_world.specs.Flat.{parts, sector_at};
ghost use Rattle.cow_world.specs.Fits.{FitsLevel, KeepsFit};
ghost use Rattle.cow_world.specs.Thinkers.{moved_by, is_lift};
ghost use Rattle.cow_world.specs.declared.kinds.GlowKind.TheVariants.{Strobe};
ghost use Rattle.cow_world.specs.declared.records.Thinker.TheVariants.{Light};
ghost use Rattle.light_fx.specs.Begins.{plain, strobe_min, flash_begun, strobe_begun, strobe_in_step, glow_begun, flicker_begun, door_begun, closing_door, opening_door, begun_by, begun_in, spawn_lights_of};

use crate::lights::{long_count, short_count};
use crate::numbers::brighter;
use cow_world::{DoorKind, DoorPhase, GlowKind, Sector, Thinker, World};
use doom_edge::{Memory, Steps};
use fixed_angle::PlayTables;
use map_geometry::{Level, difference};

/// How long a fast strobe stays dark, in tics.
pub const FAST_DARK: i32 = 15;

/// How long a slow strobe stays dark, in tics.
pub const SLOW_DARK: i32 = 35;

/// How long a door of special 10 stays open, in tics.
const OPEN_TICS: i32 = 1050;

/// How long a door of special 14 stays closed, in tics.
const CLOSED_TICS: i32 = 10500;

/// How far below the lowest ceiling around a door comes to rest, in fixed point.
const DOOR_GAP: i32 = 4 * 65536;

/// By how much a flicker stays brighter than the darkest light around.
const FLICKER_RISE: i16 = 16;

/// Begins the lights and doors that the specials of sectors ask for, sector by sector. Each special but 4, which is
/// that of a damage floor too, is then gone.
///
/// | special | what begins |
/// |---|---|
/// | 1 | a flash |
/// | 2, 4 | a strobe that stays dark for 15 tics |
/// | 3 | one that stays dark for 35 |
/// | 8 | a glow |
/// | 10 | a door that closes after 30 seconds |
/// | 12, 13 | strobes dark for 35 and 15 tics, in step with all of their kind |
/// | 14 | a door that opens after five minutes |
/// | 17 | a flicker |
///
/// After want of memory nothing is said of the world but its grid.
#[tactic(auto, using(crate::proofs::Begun::begun_first, crate::proofs::Begun::begun_all))]
pub fn spawn_lights(
    level: &Level,
    tables: &PlayTables,
    world: &mut World,
    steps: &mut Steps,
) -> Result<(), Memory>
    requires fits { FitsLevel level.now world.old }
    ensures ok { OnOk result (world.new ≡ spawn_lights_of level.now tables.now world.old) }
    ensures fits { OnOk result (KeepsFit world.old world.new) }
    ensures grid { world.new.grid ≡ world.old.grid }

    ensures tics { steps.new.tics ≡ steps.old.tics }
    ensures pages { steps.old.pages ≤ steps.new.pages }
{
    for sector in 0..world.sector_count() {
        begin_in(level, tables, world, sector, steps)?;
    }
    Ok(())
}

// Begins what the special of one sector asks for.
#[tactic(auto, using(cow_world::proofs::Keeps::keeps_two, cow_world::proofs::Keeps::keeps_same))]
fn begin_in(
    level: &Level,
    tables: &PlayTables,
    world: &mut World,
    sector: u32,
    steps: &mut Steps,
) -> Result<(), Memory>
    requires fits { FitsLevel level.now world.old }
    requires there { sector < length level.now.sectors }
    ensures ok { OnOk result (world.new ≡ begun_in level.now tables.now world.old sector) }
    ensures fits { OnOk result (KeepsFit world.old world.new) }
    ensures grid { world.new.grid ≡ world.old.grid }

    ensures tics { steps.new.tics ≡ steps.old.tics }
    ensures pages { steps.old.pages ≤ steps.new.pages }
{
    match world.sector(sector).special {
        1 => begin_flash(level, tables, world, sector, steps)?,
        2 => begin_strobe(level, tables, world, FAST_DARK, sector, steps)?,
        3 => begin_strobe(level, tables, world, SLOW_DARK, sector, steps)?,
        4 => return begin_strobe(level, tables, world, FAST_DARK, sector, steps),
        8 => begin_glow(level, world, sector, steps)?,
        10 => begin_door(level, world, sector, closing_door(sector), steps)?,
        12 => begin_in_step(level, world, SLOW_DARK, sector, steps)?,
        13 => begin_in_step(level, world, FAST_DARK, sector, steps)?,
        14 => {
            let door = opening_door(level, world, sector);
            begin_door(level, world, sector, door, steps)?
        }
        17 => begin_flicker(level, world, sector, steps)?,
        _ => return Ok(()),
    }
    make_plain(level, world, sector, steps)
}

/// Takes the special of a sector.
pub fn make_plain(
    level: &Level,
    world: &mut World,
    sector: u32,
    steps: &mut Steps,
) -> Result<(), Memory>
    requires fits { FitsLevel level.now world.old }
    requires there { sector < length (parts world.old).sectors }
    ensures ok { OnOk result (world.new ≡ plain sector world.old) }
    ensures err { OnErr result (world.new ≡ world.old) }
    ensures fits { OnOk result (KeepsFit world.old world.new) }

    ensures tics { steps.new.tics ≡ steps.old.tics }
    ensures pages { steps.old.pages ≤ steps.new.pages }
{
    // The level is there for the contract alone.
    let _level = level;
    let before = world.sector(sector);
    let after = Sector {
        special: 0,
        ..before
    };
    world.set_sector(sector, after, steps)?;
    Ok(())
}

// A flash begins bright.
fn begin_flash(
    level: &Level,
    tables: &PlayTables,
    world: &mut World,
    sector: u32,
    steps: &mut Steps,
) -> Result<(), Memory>
    requires fits { FitsLevel level.now world.old }
    requires there { sector < length level.now.sectors }
    ensures ok { OnOk result (world.new ≡ flash_begun level.now tables.now sector world.old) }
    ensures fits { OnOk result (KeepsFit world.old world.new) }
    ensures grid { world.new.grid ≡ world.old.grid }

    ensures tics { steps.new.tics ≡ steps.old.tics }
    ensures pages { steps.old.pages ≤ steps.new.pages }
{
    let min = world.least_light_around(level, sector);
    let max = world.sector(sector).light;
    let count = long_count(world.draw(tables));
    let flash = Thinker::Light {
        sector,
        kind: GlowKind::Flash,
        min,
        max,
        count,
        dark: 0,
        up: false,
    };
    world.push_thinker(flash, steps)?;
    Ok(())
}

/// A strobe begins after 1 to 8 tics, by a random number.
pub fn begin_strobe(
    level: &Level,
    tables: &PlayTables,
    world: &mut World,
    dark: i32,
    sector: u32,
    steps: &mut Steps,
) -> Result<(), Memory>
    requires fits { FitsLevel level.now world.old }
    requires there { sector < length level.now.sectors }
    ensures ok { OnOk result (world.new ≡ strobe_begun level.now tables.now dark sector world.old) }
    ensures fits { OnOk result (KeepsFit world.old world.new) }
    ensures grid { world.new.grid ≡ world.old.grid }

    ensures tics { steps.new.tics ≡ steps.old.tics }
    ensures pages { steps.old.pages ≤ steps.new.pages }
{
    let min = world.least_light_around(level, sector);
    let max = world.sector(sector).light;
    let count = short_count(world.draw(tables));
    world.push_thinker(strobe(sector, min, max, dark, count), steps)?;
    Ok(())
}

// A strobe begins in step with all of its kind.
fn begin_in_step(
    level: &Level,
    world: &mut World,
    dark: i32,
    sector: u32,
    steps: &mut Steps,
) -> Result<(), Memory>
    requires fits { FitsLevel level.now world.old }
    requires there { sector < length level.now.sectors }
    ensures ok { OnOk result (world.new ≡ strobe_in_step level.now dark sector world.old) }
    ensures fits { OnOk result (KeepsFit world.old world.new) }
    ensures grid { world.new.grid ≡ world.old.grid }

    ensures tics { steps.new.tics ≡ steps.old.tics }
    ensures pages { steps.old.pages ≤ steps.new.pages }
{
    let min = world.least_light_around(level, sector);
    let max = world.sector(sector).light;
    world.push_thinker(strobe(sector, min, max, dark, 1), steps)?;
    Ok(())
}

// A strobe between two levels of light, the darker 0 where both would be the same.
fn strobe(sector: u32, min: i16, max: i16, dark: i32, count: i32) -> Thinker
    ensures { result ≡ Light sector Strobe (strobe_min min max) max count dark false }
{
    Thinker::Light {
        sector,
        kind: GlowKind::Strobe,
        min: if min == max { 0 } else { min },
        max,
        count,
        dark,
        up: false,
    }
}

// A glow begins by getting darker.
fn begin_glow(
    level: &Level,
    world: &mut World,
    sector: u32,
    steps: &mut Steps,
) -> Result<(), Memory>
    requires fits { FitsLevel level.now world.old }
    requires there { sector < length level.now.sectors }
    ensures ok { OnOk result (world.new ≡ glow_begun level.now sector world.old) }
    ensures fits { OnOk result (KeepsFit world.old world.new) }
    ensures grid { world.new.grid ≡ world.old.grid }

    ensures tics { steps.new.tics ≡ steps.old.tics }
    ensures pages { steps.old.pages ≤ steps.new.pages }
{
    let glow = Thinker::Light {
        sector,
        kind: GlowKind::Glow,
        min: world.least_light_around(level, sector),
        max: world.sector(sector).light,
        count: 0,
        dark: 0,
        up: false,
    };
    world.push_thinker(glow, steps)?;
    Ok(())
}

// A flicker begins bright.
fn begin_flicker(
    level: &Level,
    world: &mut World,
    sector: u32,
    steps: &mut Steps,
) -> Result<(), Memory>
    requires fits { FitsLevel level.now world.old }
    requires there { sector < length level.now.sectors }
    ensures ok { OnOk result (world.new ≡ flicker_begun level.now sector world.old) }
    ensures fits { OnOk result (KeepsFit world.old world.new) }
    ensures grid { world.new.grid ≡ world.old.grid }

    ensures tics { steps.new.tics ≡ steps.old.tics }
    ensures pages { steps.old.pages ≤ steps.new.pages }
{
    let flicker = Thinker::Light {
        sector,
        kind: GlowKind::Flicker,
        min: brighter(world.least_light_around(level, sector), FLICKER_RISE),
        max: world.sector(sector).light,
        count: 4,
        dark: 0,
        up: false,
    };
    world.push_thinker(flicker, steps)?;
    Ok(())
}

// A door begins, and its sector names it.
fn begin_door(
    level: &Level,
    world: &mut World,
    sector: u32,
    door: Thinker,
    steps: &mut Steps,
) -> Result<(), Memory>
    requires fits { FitsLevel level.now world.old }
    requires there { sector < length level.now.sectors }
    requires door { moved_by door ≡ Some sector }
    requires no_lift { is_lift door ≡ false }
    ensures ok { OnOk result (world.new ≡ door_begun sector door world.old) }
    ensures fits { OnOk result (KeepsFit world.old world.new) }
    ensures grid { world.new.grid ≡ world.old.grid }

    ensures tics { steps.new.tics ≡ steps.old.tics }
    ensures pages { steps.old.pages ≤ steps.new.pages }
{
    let mover = world.thinker_count();
    world.push_thinker(door, steps)?;
    let before = world.sector(sector);
    let named = Sector {
        mover: Some(mover),
        ..before
    };
    world.set_sector(sector, named, steps)?;
    Ok(())
}

// A door that stands open for 30 seconds, and then closes. How far it would open is not set.
fn closing_door(sector: u32) -> Thinker
    ensures door { result ≡ closing_door sector }
    ensures moves { moved_by result ≡ Some sector }
    ensures no_lift { is_lift result ≡ false }
{
    Thinker::Door {
        sector,
        kind: DoorKind::Normal,
        phase: DoorPhase::Wait,
        top: None,
        count: OPEN_TICS,
    }
}

// A door that stays closed for five minutes, and then opens to a little below the lowest ceiling around.
fn opening_door(level: &Level, world: &World, sector: u32) -> Thinker
    requires fits { FitsLevel level.now world.now }
    requires there { sector < length level.now.sectors }
    ensures door { result ≡ opening_door level.now sector world.now }
    ensures moves { moved_by result ≡ Some sector }
    ensures no_lift { is_lift result ≡ false }
{
    let top = difference(world.lowest_ceiling_around(level, sector), DOOR_GAP);
    Thinker::Door {
        sector,
        kind: DoorKind::Raise5,
        phase: DoorPhase::First,
        top: Some(top),
        count: CLOSED_TICS,
    }
}
