//! A floor or a ceiling on its way.
ghost use Rattle.std.specs.Prelude.{◌≡◌, ◌<◌, ◌≤◌, length, OnOk};
ghost use Rattle.cow_world.specs.Flat.{parts};
ghost use Rattle.cow_world.specs.Fits.{Fits, FitsLevel, KeepsFit};
ghost use Rattle.cow_world.specs.Outcome.{Plays};
ghost use Rattle.mover_run.specs.Planes.{height_of, with_height, set_plane, put_at, next_place, is_past, is_rising_ceiling, shift_of, gone_back, shifted, plane_of};

use crate::change::change_sector;
use cow_world::{Plane, PlayFault, Sector, World};
use doom_edge::{Memory, Steps};
use fixed_angle::PlayTables;
use map_geometry::{Level, difference, sum};
use std::alloc::Global;

/// What became of a plane that was to move.
#[derive(Clone, Copy, Debug, PartialEq, Eq)]
pub enum Moved {
    /// It went on.
    Going,
    /// Something was in the way, and it stayed.
    Blocked,
    /// It came to its end, or would have: where something was in the way, it stayed.
    Past,
}

/// A plane that is to move: from where to where, whether it stays there whatever is stuck, and the answers where
/// nothing is and where it goes back.
#[derive(Clone, Copy)]
pub struct Shift {
    pub sector: u32,
    pub plane: Plane,
    pub from: i32,
    pub to: i32,
    pub stays: bool,
    pub moved: Moved,
    pub stuck: Moved,
}

/// Moves a sector's floor or ceiling by a speed towards an end. Where that would lead past the end, the plane comes to
/// rest at the end, and the answer is `Past`. Where something does not fit then, it goes back, and the things around
/// are clipped once more; the answer is `Blocked`, or still `Past` at the end. A ceiling on its way up doesn't go back
/// before the end. The next place wraps. After a halt or want of memory nothing is said of the world.
#[tactic(auto, unfolding(crate::specs::Planes::plane_of))]
pub fn move_plane(
    alloc: Global,
    level: &Level,
    tables: &PlayTables,
    world: &mut World,
    sector: u32,
    plane: Plane,
    speed: i32,
    dest: i32,
    up: bool,
    steps: &mut Steps,
) -> Result<Moved, PlayFault>
    requires fits { Fits level.now tables.now world.old }
    requires sector { sector < length level.now.sectors }
    ensures plays { Plays result world.new (plane_of level.now tables.now world.old sector plane speed dest up) }
    ensures fits { OnOk result (Fits level.now tables.now world.new) }
    ensures thinkers { OnOk result ((parts world.new).thinkers ≡ (parts world.old).thinkers) }

    ensures tics { steps.new.tics ≡ steps.old.tics }
    ensures pages { steps.old.pages ≤ steps.new.pages }
{
    let from = height_of(plane, &world.sector(sector));
    let shift = shift_of(sector, plane, from, speed, dest, up);
    move_by(alloc, level, tables, world, &shift, steps)
}

// The height of a plane.
fn height_of(plane: Plane, sector: &Sector) -> i32
    ensures { result ≡ height_of plane sector.now }
{
    match plane {
        Plane::Floor => sector.floor,
        Plane::Ceiling => sector.ceiling,
    }
}

// What a plane is to do.
fn shift_of(sector: u32, plane: Plane, from: i32, speed: i32, dest: i32, up: bool) -> Shift
    ensures shift { result ≡ shift_of sector plane from speed dest up }
    ensures sector { result.sector ≡ sector }
{
    let next = next_place(up, from, speed);
    if is_past(up, next, dest) {
        Shift {
            sector,
            plane,
            from,
            to: dest,
            stays: false,
            moved: Moved::Past,
            stuck: Moved::Past,
        }
    } else {
        Shift {
            sector,
            plane,
            from,
            to: next,
            stays: is_rising_ceiling(plane, up),
            moved: Moved::Going,
            stuck: Moved::Blocked,
        }
    }
}

// The next place of a plane.
fn next_place(up: bool, from: i32, speed: i32) -> i32
    ensures { result ≡ next_place up from speed }
{
    if up {
        sum(from, speed)
    } else {
        difference(from, speed)
    }
}

// Whether the next place of a plane lies past the end of its way.
fn is_past(up: bool, next: i32, dest: i32) -> bool
    ensures { result ≡ is_past up next dest }
{
    if up { next > dest } else { next < dest }
}

// Whether a plane is a ceiling on its way up.
fn is_rising_ceiling(plane: Plane, up: bool) -> bool
    ensures { result ≡ is_rising_ceiling plane up }
{
    match plane {
        Plane::Floor => false,
        Plane::Ceiling => up,
    }
}

// Does what a plane is to do.
fn move_by(
    alloc: Global,
    level: &Level,
    tables: &PlayTables,
    world: &mut World,
    shift: &Shift,
    steps: &mut Steps,
) -> Result<Moved, PlayFault>
    requires fits { Fits level.now tables.now world.old }
    requires sector { shift.now.sector < length level.now.sectors }
    ensures plays { Plays result world.new (shifted level.now tables.now shift.now world.old) }
    ensures fits { OnOk result (Fits level.now tables.now world.new) }
    ensures thinkers { OnOk result ((parts world.new).thinkers ≡ (parts world.old).thinkers) }

    ensures tics { steps.new.tics ≡ steps.old.tics }
    ensures pages { steps.old.pages ≤ steps.new.pages }
{
    let stuck = put_at(alloc, level, tables, world, shift, shift.to, steps)?;
    if stuck && !shift.stays {
        return go_back(alloc, level, tables, world, shift, steps);
    }
    Ok(shift.moved)
}

// A plane goes back to where it was.
fn go_back(
    alloc: Global,
    level: &Level,
    tables: &PlayTables,
    world: &mut World,
    shift: &Shift,
    steps: &mut Steps,
) -> Result<Moved, PlayFault>
    requires fits { Fits level.now tables.now world.old }
    requires sector { shift.now.sector < length level.now.sectors }
    ensures plays { Plays result world.new (gone_back level.now tables.now shift.now world.old) }
    ensures fits { OnOk result (Fits level.now tables.now world.new) }
    ensures thinkers { OnOk result ((parts world.new).thinkers ≡ (parts world.old).thinkers) }

    ensures tics { steps.new.tics ≡ steps.old.tics }
    ensures pages { steps.old.pages ≤ steps.new.pages }
{
    let _stuck = put_at(alloc, level, tables, world, shift, shift.from, steps)?;
    Ok(shift.stuck)
}

// Puts a plane at a height, and changes its sector. Whether something is stuck.
fn put_at(
    alloc: Global,
    level: &Level,
    tables: &PlayTables,
    world: &mut World,
    shift: &Shift,
    height: i32,
    steps: &mut Steps,
) -> Result<bool, PlayFault>
    requires fits { Fits level.now tables.now world.old }
    requires sector { shift.now.sector < length level.now.sectors }
    ensures plays { Plays result world.new (put_at level.now tables.now world.old shift.now.sector shift.now.plane height) }
    ensures fits { OnOk result (Fits level.now tables.now world.new) }
    ensures thinkers { OnOk result ((parts world.new).thinkers ≡ (parts world.old).thinkers) }

    ensures tics { steps.new.tics ≡ steps.old.tics }
    ensures pages { steps.old.pages ≤ steps.new.pages }
{
    set_plane(
        level,
        tables,
        world,
        shift.sector,
        shift.plane,
        height,
        steps,
    )?;
    change_sector(alloc, level, tables, world, shift.sector, steps)
}

// Puts a plane at a height.
fn set_plane(
    level: &Level,
    tables: &PlayTables,
    world: &mut World,
    sector: u32,
    plane: Plane,
    height: i32,
    steps: &mut Steps,
) -> Result<(), Memory>
    requires fits { Fits level.now tables.now world.old }
    requires sector { sector < length level.now.sectors }
    ensures ok { OnOk result (world.new ≡ set_plane world.old sector plane height) }
    ensures fits { OnOk result (Fits level.now tables.now world.new) }

    ensures tics { steps.new.tics ≡ steps.old.tics }
    ensures pages { steps.old.pages ≤ steps.new.pages }
{
    // The level and the tables are there for the contract alone.
    let _level = level;
    let _tables = tables;
    let before = world.sector(sector);
    let after = with_height(plane, before, height);
    world.set_sector(sector, after, steps)
}

// The sector with a plane at another height.
fn with_height(plane: Plane, sector: Sector, height: i32) -> Sector
    ensures value { result ≡ with_height plane sector height }
    ensures mover { result.mover ≡ sector.mover }
{
    match plane {
        Plane::Floor => Sector {
            floor: height,
            ..sector
        },
        Plane::Ceiling => Sector {
            ceiling: height,
            ..sector
        },
    }
}
