//! Searches for the first sequence of tics that meets some targets.
#![tactic(auto)]

mod crew;
mod first;
mod order;
mod walk;
mod worker;

pub use first::first_match;
pub use order::{Simulated, simulate, simulate_by};
pub use walk::Walk;
