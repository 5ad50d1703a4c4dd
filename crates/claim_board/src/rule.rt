//! The rule of the board's table, and what each of its steps tells.
use crate::view::{Key, View};
use atomic_table::{Join, Play, Split, TableRule};
use std::marker::Brand;

// The rule of a board's two words and of its seats' views.
pub(crate) struct Kept;

impl TableRule<(), View, Key> for Kept {
    ghost use Rattle.std.specs.Prelude.{[]};
    ghost use Rattle.claim_board.specs.Views.{opening};
    ghost use Rattle.claim_board.specs.Rule.{IsKept};

    ghost holds = { IsKept };

    ghost first = { λ key. opening key.count key.block [] };
}

// `fetch_add` on the word `next`.
pub(crate) struct Claim;

impl Play<(), View> for Claim {
    ghost use Rattle.claim_board.specs.Steps.{Claims};

    ghost then = { Claims };
}

// A load of the word `least`.
pub(crate) struct Look;

impl Play<(), View> for Look {
    ghost use Rattle.claim_board.specs.Steps.{Looks};

    ghost then = { Looks };
}

// `fetch_min` on the word `least`.
pub(crate) struct Post;

impl Play<(), View> for Post {
    ghost use Rattle.claim_board.specs.Steps.{Posts};

    ghost then = { Posts };
}

// The load that makes a board: the proof of the call picks which numbers meet.
impl Play<(), View> for Brand {
    ghost use Rattle.std.specs.Prelude.{[]};
    ghost use Rattle.claim_board.specs.Steps.{tells};

    ghost then = { tells [] };
}

// The load that makes a seat.
pub(crate) struct SplitOff;

impl Split<View> for SplitOff {
    ghost use Rattle.claim_board.specs.Views.{after_split, split_off};

    ghost left = { after_split };

    ghost right = { split_off };
}

// The load that joins two seats.
pub(crate) struct TakeIn;

impl Join<View> for TakeIn {
    ghost use Rattle.claim_board.specs.Views.{joined, spent};

    ghost both = { joined };

    ghost spent = { spent };
}
