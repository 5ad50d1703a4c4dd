//! The targets of a search: what the world after a sequence of tics has to show.
#![tactic(auto)]

mod bits;
mod want;
mod wants;

pub use bits::join_lines;
pub use want::{Op, Want};
pub use wants::{MAX_WANTS, Wants};
