//! The board of a parallel search: two words that all workers share, and no lock.
//!
//! The numbers below a count are cut into blocks. Of some numbers, which contracts alone name, it is said
//! that they meet. Workers look for the least of these. The board has two words:
//!
//! | word | starts at | what it says | how it changes |
//! |---|---|---|---|
//! | next | 0 | the first block that nobody has claimed | `claim` adds 1 to it |
//! | least | the count | the least number so far that was found to meet | `post` lowers it |
//!
//! Each worker has a [`Seat`]. It takes no bytes: it is what its worker knows, and contracts name that as a
//! [`View`]. Each call of the board is one atomic step, which may fall between any two steps of other workers.
//! None of them waits, tries again or, but for [`Board::new`], takes memory.
//!
//! Whoever has joined all seats into one, and has claimed a block that starts at or above the least number
//! that the seat has seen, can close the board, and is told the first number that meets.
#![tactic(auto)]

mod board;
mod memory;
mod rule;
mod view;

pub use board::{Board, Seat};
pub use memory::Memory;
pub use view::View;
