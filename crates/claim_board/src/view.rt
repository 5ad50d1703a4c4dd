//! What a board is made for, and what one of its seats knows.
ghost use Rattle.std.specs.Prelude.{ℕ, List, Option};
ghost use Rattle.std.specs.Borrow.{ftrue};

use std::marker::Model;

// What a board is made for: how many numbers there are, and how many of them are a block.
#[derive(Drop)]
pub(crate) struct Key {
    pub(crate) count: u64,
    pub(crate) block: u64,
}

/// What a seat knows. It is there for proofs alone: no value of it is made.
pub struct View {
    /// The blocks that it has claimed, and those of the seats that it has joined.
    pub ghost mine: { List ℕ },
    /// The block of its own last claim: the open block, until it claims again.
    pub ghost last: { Option ℕ },
    /// The least number that it has seen in the least word, or has posted.
    pub ghost seen: { ℕ },
    /// How many of the 64 seats it stands for.
    pub ghost parts: { ℕ },
    /// How many seats it may still split off.
    pub ghost spare: { ℕ },
    /// How many numbers the board is made for.
    pub ghost count: { ℕ },
    /// How many numbers a block has.
    pub ghost block: { ℕ },
    /// The numbers that meet, rising.
    pub ghost meets: { List ℕ },
}

impl Model for View {
    ghost also_owns = { λ _. ftrue };
}
