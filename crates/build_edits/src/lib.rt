//! The edits of a demo that is built tic by tic: a list of tics and a cursor in it, and in a game the world
//! at the cursor.
#![tactic(auto)]

mod blocks;
mod build;
mod fault;
mod laws;
mod list;
mod pieces;
mod reel;

pub use build::Build;
pub use fault::EditFault;
pub use laws::lists_of_edits;
pub use reel::Tape;
