//! Lines that act: what happens where one is crossed or used.
//!
//! A line's number is that of the world now, since many lines lose theirs. `ROWS` has what each number means.
#![tactic(auto)]

mod acts;
mod crosses;
mod exits;
mod table;
mod teleports;
mod uses;

pub use crosses::{Crossed, cross_line};
pub use table::{Action, CROSSED_HALTS, Key, ROWS, Row, Trigger, USED_HALTS};
pub use uses::use_line;
