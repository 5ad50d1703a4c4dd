//! A level's lists, and which side of a line a place is on.
#![tactic(auto)]

mod blocks;
mod boxes;
mod fault;
mod known;
mod level;
mod records;
mod sectors;
mod sides;

pub use blocks::{
    Block, BlockBox, blocks_below, blocks_from, blocks_of, box_around, cut_to_grid, widened,
};
pub use boxes::Blocks;
pub use fault::LevelFault;
pub use known::Known;
pub use level::{Level, LevelParts};
pub use records::{Area, DivLine, Ground, Line, Node, Seg, Side, Slope, Spot, Subsector, Vertex};
pub use sectors::{Outline, block_box, holding};
pub use sides::{box_side, difference, divline_side, intercept, line_side, node_side, sum};
