//! The first fault of the subsectors: none at all, or one without a seg that lies on a side that is
//! there.

ghost use Rattle.std.specs.Prelude.{◌≡◌, ◌<◌, length};
ghost use Rattle.fixed_angle.specs.FirstFault.{FirstFault};
ghost use Rattle.map_geometry.specs.Derived.{side_of};
ghost use Rattle.map_geometry.specs.Level.{lists_of};
ghost use Rattle.map_geometry.specs.Conditions.{subsector_checks, subsector_conditions};

use map_geometry::{LevelFault, LevelParts, Line};

/// The numbers of the lumps of segs and subsectors among a map's ten.
const SEGS: u32 = 5;

const SUBSECTORS: u32 = 6;

/// The side of a line that a seg names.
pub fn side_on(line: &Line, side: u16) -> Option<u16>
    ensures { result ≡ side_of line.now side }
{
    match side {
        0 => Some(line.front_side),
        1 => line.back_side,
        _ => None,
    }
}

/// The first fault of a subsector.
fn subsector_fault(parts: &LevelParts, i: usize) -> Option<LevelFault>
    requires { i < length (lists_of parts.now).subsectors }
    ensures { FirstFault (subsector_conditions (lists_of parts.now) i) result }
{
    let subsector = parts.subsectors[i];
    let first = usize::from(subsector.first);
    if subsector.count == 0 || first >= parts.segs.len() {
        return Some(LevelFault::LevelRef(SUBSECTORS, i));
    }
    let seg = parts.segs[first];
    let line = usize::from(seg.line);
    if line >= parts.lines.len() {
        return Some(LevelFault::LevelRef(SEGS, first));
    }
    match side_on(&parts.lines[line], seg.side) {
        None => Some(LevelFault::LevelRef(SEGS, first)),
        Some(_) => None,
    }
}

/// The first fault of the subsectors.
pub fn subsectors_fault(parts: &LevelParts) -> Option<LevelFault>
    ensures { FirstFault (subsector_checks (lists_of parts.now)) result }
{
    if parts.subsectors.is_empty() {
        return Some(LevelFault::LevelRef(SUBSECTORS, 0));
    }
    for i in 0..parts.subsectors.len() {
        if let Some(fault) = subsector_fault(parts, i) {
            return Some(fault);
        }
    }
    None
}
