//! How the player moves: tries, slides, thrust, falls, uses, and what the floor does to it.
//!
//! Each call takes a world that fits the level and the tables, and leaves one that does. A part that halts answers
//! [`PlayFault::Halt`], and then nothing is said of the world.
#![tactic(auto)]

mod falls;
mod floors;
mod moves;
mod player;
mod slides;
mod thinks;
mod tries;
mod uses;

pub use cow_world::PlayFault;
pub use falls::z_move;
pub use moves::xy_move;
pub use thinks::think;
pub use tries::try_move;
pub use uses::use_ahead;
