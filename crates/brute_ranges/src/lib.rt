//! The input sequences of a search: for each of its tics, a range of each value of a tic.
//!
//! A sequence is one tic for each place, of a demo of version 109 or, with long turns, 111. The sequences are numbered from 0 in the order of the product:
//! the first tic counts most, and within a tic forward, side, turn and use, each rising through its range.
#![tactic(auto)]

mod fault;
mod ranges;
mod space;

pub use fault::SpaceFault;
pub use ranges::{Range, TicRanges};
pub use space::{MAX_DEPTH, MAX_SEQUENCES, Space};
