//! Inputs for tests, made from a few numbers: play tables, demos and small maps.
//!
//! Tests alone stand on this crate, and no other crate's contract cites it: its calls say no more than that they return.
#![tactic(auto)]

mod demos;
mod maps;
mod tables;
mod wads;

pub use demos::{HEADER, demo, demo_of_zeros, header_at};
pub use maps::{
    MapPlan, PlanLine, PlanNode, PlanSector, PlanThing, picket_room, single_room, three_sectors,
    two_sectors,
};
pub use tables::{PlanKind, play_tables, play_tables_of};
pub use wads::wad;
