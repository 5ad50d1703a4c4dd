//! The start of a level: its things as they are spawned, the order in which they are linked, and then the lights and
//! doors of its sectors.
//!
//! Coordinates and heights are in fixed point: 65536 is one map unit. Angles are in angle units: 2^32 are a whole turn.
#![tactic(auto)]

mod entries;
mod fault;
mod links;
mod spawns;
mod startup;

pub use fault::StartFault;
pub use startup::start;
