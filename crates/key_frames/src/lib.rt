//! Key frames: worlds that are kept along the replay of a list of tics, one every [`FRAME_TICS`] tics, so
//! that the world at a tic is played on from the last of them before it, and not from the start.
#![tactic(auto)]

mod frames;
mod play;

pub use frames::Frames;
pub use play::FRAME_TICS;
