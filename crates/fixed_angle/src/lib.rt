//! Arithmetic in fixed point, angles and the play tables.
#![tactic(auto)]

mod angle;
mod fault;
mod fixed;
mod kind;
mod read;
mod tables;

pub use fault::TabFault;
pub use fixed::{aprox_distance, fixed_div, fixed_mul, slope_div};
pub use kind::Kind;
pub use tables::PlayTables;
