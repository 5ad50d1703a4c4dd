//! Lights: how they begin, what they do in each tic, and what lines do with them.
//!
//! A sector's light is a level of 16 signed bits. Counts are in tics.
#![tactic(auto)]

mod begins;
mod lamp;
mod lights;
mod line_lights;
mod numbers;
mod random;

pub use begins::spawn_lights;
pub use lights::{run_light, run_lights};
pub use line_lights::line_light;
pub use random::play_random;
