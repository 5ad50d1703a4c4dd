//! A game that is played in worlds, one tic after the other, and what can be read of a world.
//!
//! The crates that edit and search demos are generic over [`Game`], and know of it only what its clauses say. A session
//! also shows sectors and the player's body, by [`Details`].
#![tactic(auto)]

mod details;
mod game;
mod laws;
mod shown;

pub use details::{Details, Ground, Vitals};
pub use game::Game;
pub use laws::replays_append;
pub use shown::{Halt, Quantity, Shown};
