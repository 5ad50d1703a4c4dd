//! What moves floors and ceilings: a sector's change, a plane on its way, and doors, lifts and floors in a tic.
//!
//! Heights are in fixed point: 65536 is one map unit. Counts are in tics, speeds in fixed point a tic.
#![tactic(auto)]

mod change;
mod doors;
mod floors;
mod lifts;
mod movers;
mod planes;
mod runs;

pub use change::change_sector;
pub use planes::{Moved, move_plane};
pub use runs::run_thinkers;
