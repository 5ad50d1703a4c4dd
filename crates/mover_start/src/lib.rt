//! How doors, lifts and floors start, stop and turn.
//!
//! Heights are in fixed point: 65536 is one map unit. Counts are in tics. Each call answers true exactly where
//! something started, stopped or turned; what a mover then does in each tic is another crate's.
#![tactic(auto)]

mod begins;
mod doors;
mod floors;
mod lifts;
mod manual;
mod stops;

pub use doors::do_door;
pub use floors::do_floor;
pub use lifts::do_plat;
pub use manual::manual_door;
pub use stops::stop_plat;
