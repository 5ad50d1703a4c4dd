//! The geometry of a slide: how far a player who runs into a wall may go, and the way along the wall.
#![tactic(auto)]

mod along;
mod angles;
mod best;
mod stops;
mod traced;

pub use along::clip_along;
pub use angles::{turned, turned_back};
pub use best::best_slide;
pub use block_walk::TraceFault;
pub use traced::trace_along;
