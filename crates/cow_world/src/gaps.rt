//! The gap that a line leaves.
ghost use Rattle.std.specs.Prelude.{◌≡◌, ◌<◌, ◌-ℤ◌, length};
ghost use Rattle.fixed_angle.specs.Fixed.{wrap32};
ghost use Rattle.cow_world.specs.Fits.{FitsLevel};
ghost use Rattle.cow_world.specs.Gaps.{gap_between, gap_of};

use crate::records::Sector;
use crate::world::World;
use map_geometry::Level;

/// The gap of a line between the sectors on its sides, in fixed point: from the higher floor, `bottom`, to the lower
/// ceiling, `top`, over the lower floor, `low`. `range` is how high it is.
#[derive(Clone, Copy, Debug, PartialEq, Eq)]
pub struct Gap {
    pub range: i32,
    pub top: i32,
    pub bottom: i32,
    pub low: i32,
}

// The way from one height to another.
fn difference(to: i32, from: i32) -> i32
    ensures { result ≡ wrap32 (to -ℤ from) }
{
    to.wrapping_sub(from)
}

// The gap between two sectors.
#[tactic(auto, using(map_geometry::proofs::Ways::casts))]
fn gap_between(front: &Sector, back: &Sector) -> Gap
    ensures { result ≡ gap_between front.now back.now }
{
    let top = front.ceiling.min(back.ceiling);
    let bottom = front.floor.max(back.floor);
    Gap {
        range: difference(top, bottom),
        top,
        bottom,
        low: front.floor.min(back.floor),
    }
}

impl World {
    /// The gap of a line as its sectors stand now. All is 0 where the line has nothing behind it.
    pub fn gap(&self, level: &Level, line: u32) -> Gap
        requires fits { FitsLevel level.now self.now }
        requires there { line < length level.now.lines }
        ensures { result ≡ gap_of level.now self.now line }
    {
        let line = level.line(line as usize);
        let Some(back) = line.back else {
            return Gap {
                range: 0,
                top: 0,
                bottom: 0,
                low: 0,
            };
        };
        gap_between(&self.sector(line.front), &self.sector(back))
    }
}
