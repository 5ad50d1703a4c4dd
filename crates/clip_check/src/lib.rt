//! The check of a thing at a place, and the clip of a thing's height.
//!
//! [`check_position`] says whether a thing may stand at a place, between which floor and ceiling, over which drop, and
//! on which special lines; the player touches things on the way. [`height_clip`] fits a thing between a floor and a
//! ceiling that have moved. Coordinates and heights are in fixed point: 65536 is one map unit.
#![tactic(auto)]

mod check;
mod clip;
mod lines;
mod listed;
mod things;
mod touch;
mod trial;

pub use check::check_position;
pub use clip::height_clip;
pub use listed::Listed;
pub use trial::Checked;
