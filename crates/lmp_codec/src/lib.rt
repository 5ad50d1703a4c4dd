//! Demos of Doom in the LMP form of versions 109 and 111: tics of input, a header, and the bytes that they are written as.
//!
//! A demo is 13 header bytes, the bytes of each tic, the end byte 0x80, and then any rest. A tic has four bytes in a
//! demo of version 109, and five in one of version 111, where a turn has two. What is read is exactly what is written so,
//! and a text that is no demo gets the first fault from the left.
#![tactic(auto)]

mod fault;
mod head;
mod input;
pub mod laws;
mod read;
mod spell;
mod turn;
mod whole;
mod write;

pub use fault::{DemoFault, Memory};
pub use head::Header;
pub use input::Tic;
pub use read::{MOST_TICS, read_demo};
pub use turn::{greatest_turn, least_turn, turn_count, turn_of};
pub use whole::{Demo, Tics};
pub use write::write_demo;
