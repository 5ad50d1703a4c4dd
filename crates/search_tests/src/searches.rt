//! Searches over the sample game.
ghost use Rattle.std.specs.Prelude.{◌≡◌};

use brute_ranges::{Range, Space, TicRanges};
use brute_targets::{Op, Want, Wants};
use game_trait::Quantity;
use std::alloc::Global;
use std::test::Fail;

/// A search of so many tics, each of which goes ahead by `low` to `high`, and may use where `uses` is 1.
pub fn space(alloc: Global, depth: usize, low: i32, high: i32, uses: i32) -> Result<Space, Fail> {
    let none = Range { low: 0, high: 0 };
    let ranges = TicRanges {
        forward: Range { low, high },
        side: none,
        turn: none,
        using: Range { low: 0, high: uses },
    };
    let tics = vec![in alloc; ranges; depth]?;
    match Space::new(alloc, tics, false) {
        Ok(space) => Ok(space),
        Err(_) => Err(Fail::from("no space")),
    }
}

/// The target that the way ahead compares so with this.
pub fn ahead(alloc: Global, op: Op, x: i64) -> Result<Wants, Fail> {
    Ok(Wants::new(vec![in alloc; Want::Reading(Quantity::X, op, x)]?))
}
