//! A gallery: a level of rooms in a row, play tables and a demo, all made out of one number.
#![tactic(auto)]

mod bytes;
mod demo;
mod draws;
mod files;
mod lumps;
mod making;
mod plan;
mod tables;
mod wads;

pub use doom_edge::Memory;
pub use files::Gallery;
pub use making::gallery;
