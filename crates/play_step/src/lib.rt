//! The game: one tic, whole.
//!
//! [`Doom`] is the game on a level with play tables, from a demo's header. What a tic does is the list of its parts, in
//! `specs/Step.antt`; a part that halts makes the halt the world's state.
#![tactic(auto)]

mod doom;
mod shown;
mod step;

pub use doom::Doom;
