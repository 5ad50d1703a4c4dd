//! The player's body: health, armour, and what lasts for a while.
//!
//! A [`Body`] is seen as the record of its numbers. `specs/Body.antt` says what a hit, a taken thing and a tic make
//! of one. Health and armour are in points, times in tics.
#![tactic(auto)]

mod body;
mod hits;
mod takes;

pub use body::Body;
pub use hits::Hurt;
