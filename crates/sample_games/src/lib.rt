//! A small game for tests of what is generic over games: it counts its tics and adds up how far they go ahead.
//!
//! It counts its own steps too, beside the counter that is handed to it, so that a test sees a step that was hidden
//! from that counter, and its n-th step or fork finds no memory where a test asks for that.
#![tactic(auto)]

mod game;

pub use game::{SampleGame, SampleWorld};
