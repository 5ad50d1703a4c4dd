//! Reads a level from a map's lumps.
//!
//! `records` reads one record at its place in the file, `lumps` one list, and `reading` all lists
//! of a map, with the fields that follow from other records. `lines`, `subsectors`, `nodes` (over
//! `walks`) and `blocks` judge a group of lists each, and `checks` all of them in order. `index` adds
//! what belongs to each sector. What the lists are is said in `specs/Spelled.antt`, what has to hold in `specs/Load.antt` and in the
//! conditions of `map_geometry`.
#![tactic(auto)]

mod blocks;
mod checks;
mod index;
mod laws;
mod level;
mod lines;
mod lumps;
mod nodes;
mod reading;
mod records;
mod subsectors;
mod walks;

pub use laws::one_fault;
pub use level::load;
pub use map_geometry::LevelFault;
