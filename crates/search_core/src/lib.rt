//! The search for the first number that meets, as a pure machine.
//!
//! The numbers below a count are cut into blocks. Some hands share two numbers: the next block that
//! nobody has claimed, and the least number that was found. A hand claims a block, looks at the least
//! number before each try, posts the first number of its block that meets, and claims again. It is
//! over once it claims a block that starts at or above what it has seen.
//!
//! Whatever the order of turns, the least number that is known when all hands are over is the first
//! number that meets, or the count where none does.
#![tactic(auto)]

mod hand;
mod machine;
mod named;
mod order;

pub use hand::{Answer, Ask, Hand, Phase};
pub use machine::{Core, Memory, Turn};
pub use named::Turns;
pub use order::{Schedule, Trial, any_order, number_of_turns};
