//! The first fault of the lines: vertices, sides or sectors that are not there.

ghost use Rattle.std.specs.Prelude.{◌≡◌, ◌↔◌, ◌<◌, [], ◌∷◌, length, IsTrue};
ghost use Rattle.fixed_angle.specs.FirstFault.{FirstFault};
ghost use Rattle.map_geometry.specs.Derived.{sector_of_side};
ghost use Rattle.map_geometry.specs.Level.{lists_of};
ghost use Rattle.map_geometry.specs.Conditions.{line_checks, line_conditions};

use map_geometry::{LevelFault, LevelParts};

/// The numbers of the lumps of lines and sides among a map's ten.
const LINES: u32 = 2;

const SIDES: u32 = 3;

/// Whether a side is there.
fn has_side(parts: &LevelParts, side: u16) -> bool
    ensures { IsTrue result ↔ (side < length (lists_of parts.now).sides) }
{
    usize::from(side) < parts.sides.len()
}

/// Whether the sector that a side faces is there.
fn faces_sector(parts: &LevelParts, side: u16) -> bool
    requires { side < length (lists_of parts.now).sides }
    ensures { IsTrue result
        ↔ (sector_of_side (lists_of parts.now).sides side < length (lists_of parts.now).sectors) }
{
    usize::from(parts.sides[usize::from(side)].sector) < parts.sectors.len()
}

/// The first fault of a line.
fn line_fault(parts: &LevelParts, i: usize) -> Option<LevelFault>
    requires { i < length (lists_of parts.now).lines }
    ensures { FirstFault (line_conditions (lists_of parts.now) i) result }
{
    let line = parts.lines[i];
    let vertices = parts.vertices.len();
    if usize::from(line.v1) >= vertices || usize::from(line.v2) >= vertices {
        return Some(LevelFault::LevelRef(LINES, i));
    }
    if !has_side(parts, line.front_side) {
        return Some(LevelFault::LevelRef(LINES, i));
    }
    match line.back_side {
        None => {
            if !faces_sector(parts, line.front_side) {
                return Some(LevelFault::LevelRef(SIDES, usize::from(line.front_side)));
            }
            None
        }
        Some(back_side) => {
            if !has_side(parts, back_side) {
                return Some(LevelFault::LevelRef(LINES, i));
            }
            let front_side = line.front_side;
            if !faces_sector(parts, front_side) {
                return Some(LevelFault::LevelRef(SIDES, usize::from(front_side)));
            }
            if !faces_sector(parts, back_side) {
                return Some(LevelFault::LevelRef(SIDES, usize::from(back_side)));
            }
            None
        }
    }
}

/// The first fault of the lines.
pub fn lines_fault(parts: &LevelParts) -> Option<LevelFault>
    ensures { FirstFault (line_checks (lists_of parts.now)) result }
{
    for i in 0..parts.lines.len() {
        if let Some(fault) = line_fault(parts, i) {
            return Some(fault);
        }
    }
    None
}
