//! The order in which things were linked into the blocks of a level, the last linked first.
#![tactic(auto)]

mod base;
mod linked;
mod order;
mod recent;

pub use linked::Linked;
pub use order::{FEW_THINGS, LinkOrder, Things};
