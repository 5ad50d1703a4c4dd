//! The blocks that a trace visits.
ghost use Rattle.std.specs.Prelude.{◌≡◌};
ghost use Rattle.block_walk.specs.Visits.{in_blocks, part_of_block, slope_between, axis_by, axis_of, begin_of, is_at_end, moved_of, column_next, row_next, next_of};

use crate::numbers::{in_blocks, whole};
use fixed_angle::{fixed_div, fixed_mul};
use map_geometry::{Block, blocks_below, difference, sum};

/// One in fixed point.
const ONE: i32 = 65536;

/// How a trace that goes along one axis crosses the borders between blocks on it. Places are in fixed point, with
/// the side of a block as the unit.
#[derive(Clone, Copy)]
pub struct Axis {
    /// From a block to the next: 1, -1, or 0 where the trace begins and ends between the same borders.
    pub step: i32,
    /// Where on the other axis the next border is crossed.
    pub crossing: i32,
    /// How far on the other axis two crossings lie apart.
    pub slope: i32,
}

impl Axis {
    /// The axis when the next border was crossed.
    #[tactic(auto, using(crate::proofs::Slopes::casts), unfolding(crate::specs::Visits::moved_of))]
    fn moved(self) -> Self
        ensures { result ≡ moved_of self }
    {
        Axis {
            crossing: sum(self.crossing, self.slope),
            ..self
        }
    }
}

/// A walk from block to block, as far as it has come.
#[derive(Clone, Copy)]
pub struct Walk {
    pub block: Block,
    pub last: Block,
    pub x: Axis,
    pub y: Axis,
}

/// How far a coordinate lies from the border below it.
fn part(place: i32) -> i32
    ensures { result ≡ part_of_block place }
{
    in_blocks(place).rem_euclid(ONE)
}

/// How far the way `across` leads for each unit of the way `along`, whichever direction that has.
#[tactic(auto, using(crate::proofs::Slopes::casts), unfolding(crate::specs::Visits::slope_between))]
fn slope(along: i32, across: i32) -> i32
    ensures { result ≡ slope_between along across }
{
    match along.checked_abs() {
        Some(length) => fixed_div(across, length),
        None => across / 32768,
    }
}

/// The axis with this step and slope, whose first border lies so far away.
#[tactic(auto, using(crate::proofs::Slopes::casts), unfolding(crate::specs::Visits::axis_by))]
fn axis_with(step: i32, away: i32, slope: i32, across: i32) -> Axis
    ensures { result ≡ axis_by step away slope across }
{
    Axis {
        step,
        crossing: sum(in_blocks(across), fixed_mul(away, slope)),
        slope,
    }
}

/// The axis along which a trace goes from one coordinate to another, while it goes on the other axis from `across`
/// to `across_to`. All four are counted from the grid's sides.
#[tactic(auto, using(crate::proofs::Slopes::casts), unfolding(crate::specs::Visits::axis_of))]
fn axis_between(from: i32, to: i32, across: i32, across_to: i32) -> Axis
    ensures { result ≡ axis_of from to across across_to }
{
    let begin = blocks_below(from);
    let end = blocks_below(to);
    if begin == end {
        return axis_with(0, ONE, 256 * ONE, across);
    }
    let slope = slope(difference(to, from), difference(across_to, across));
    if begin < end {
        axis_with(1, ONE - part(from), slope, across)
    } else {
        axis_with(-1, part(from), slope, across)
    }
}

impl Walk {
    /// The walk of a trace between two places, which are counted from the grid's sides.
    #[tactic(auto, using(crate::proofs::Slopes::casts), unfolding(crate::specs::Visits::begin_of))]
    pub fn between(x1: i32, y1: i32, x2: i32, y2: i32) -> Self
        ensures { result ≡ begin_of x1 y1 x2 y2 }
    {
        Walk {
            block: Block {
                column: blocks_below(x1),
                row: blocks_below(y1),
            },
            last: Block {
                column: blocks_below(x2),
                row: blocks_below(y2),
            },
            x: axis_between(x1, x2, y1, y2),
            y: axis_between(y1, y2, x1, x2),
        }
    }

    pub fn is_at_end(&self) -> bool
        ensures { result ≡ is_at_end self.now }
    {
        self.block == self.last
    }

    /// The walk across the border between two columns.
    #[tactic(auto, using(crate::proofs::Slopes::casts))]
    fn across_column(self) -> Self
        ensures { result ≡ column_next self }
    {
        Walk {
            block: Block {
                column: sum(self.block.column, self.x.step),
                row: self.block.row,
            },
            x: self.x.moved(),
            ..self
        }
    }

    /// The walk across the border between two rows.
    #[tactic(auto, using(crate::proofs::Slopes::casts))]
    fn across_row(self) -> Self
        ensures { result ≡ row_next self }
    {
        Walk {
            block: Block {
                column: self.block.column,
                row: sum(self.block.row, self.y.step),
            },
            y: self.y.moved(),
            ..self
        }
    }

    /// The walk at the next block. Where no border is crossed in this one, it stays.
    #[tactic(auto, using(crate::proofs::Slopes::casts), unfolding(crate::specs::Visits::next_of))]
    pub fn next(self) -> Self
        ensures { result ≡ next_of self }
    {
        if whole(self.x.crossing) == self.block.row {
            self.across_column()
        } else if whole(self.y.crossing) == self.block.column {
            self.across_row()
        } else {
            self
        }
    }
}
