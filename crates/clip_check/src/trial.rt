//! What is checked, and what is found.

use crate::listed::Listed;

/// A thing that is tried at a place: its place among the things, whether it is the player, where, and its radius.
#[derive(Clone, Copy)]
pub struct Trial {
    pub thing: u32,
    pub player: bool,
    pub x: i32,
    pub y: i32,
    pub radius: i32,
}

/// What a check found. `clear`: nothing is in the way. Where a thing is in the way, `floor`, `ceiling` and `dropoff`
/// are those of the place's sector, and nothing is listed; where a line is, they are what the lines before it leave.
#[derive(Drop)]
pub struct Checked {
    pub clear: bool,
    /// The highest floor under the box.
    pub floor: i32,
    /// The lowest ceiling over it.
    pub ceiling: i32,
    /// The lowest floor under it.
    pub dropoff: i32,
    /// The lines with a special on which the box lies.
    pub listed: Listed,
}
