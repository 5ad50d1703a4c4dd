//! Where places lie in a level: the subsector of a place, the lines round a box, and those that a trace meets.
#![tactic(auto)]

mod blocks;
mod exits;
mod fault;
mod lines;
mod lists;
mod marks;
mod near;
mod numbers;
mod places;
mod traces;
mod walk;

pub use blocks::block_count;
pub use exits::{MARKER, know_exits, sector_of_exit};
pub use fault::TraceFault;
pub use lines::lines_in;
pub use map_geometry::{Block, BlockBox, blocks_of};
pub use near::{NearLines, near_all};
pub use places::{sector_of_place, subsector_at};
pub use traces::trace;
