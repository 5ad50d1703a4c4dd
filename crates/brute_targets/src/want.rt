//! One target.

ghost use Rattle.std.specs.Prelude.{◌≡◌, ℤ, Bool, Option};
ghost use Rattle.brute_targets.specs.Targets.{compares, reads, holds_in, acts_now};

use game_trait::{Game, Quantity};

/// How a reading compares with the value of a target.
#[derive(Clone, Copy, Debug, PartialEq, Eq)]
pub enum Op {
    Less,
    LessEqual,
    Equal,
    NotEqual,
    GreaterEqual,
    Greater,
}

/// A target.
#[derive(Clone, Copy, Debug, PartialEq, Eq)]
pub enum Want {
    /// The reading of the quantity in the world after the last tic compares so with the value.
    Reading(Quantity, Op, i64),
    /// This line acted in one of the tics.
    Line(u32),
    /// The world after the last tic has been left by an exit.
    Exit,
}

/// Whether a reading compares so with a value.
fn compares(op: Op, reading: i64, value: i64) -> bool
    ensures { result ≡ compares op reading value }
{
    match op {
        Op::Less => reading < value,
        Op::LessEqual => reading <= value,
        Op::Equal => reading == value,
        Op::NotEqual => reading != value,
        Op::GreaterEqual => reading >= value,
        Op::Greater => reading > value,
    }
}

/// Whether there is a reading that compares so with a value.
fn reads(op: Op, value: i64, reading: Option<i64>) -> bool
    ensures { result ≡ reads op value reading }
{
    match reading {
        Some(reading) => compares(op, reading, value),
        None => false,
    }
}

/// Whether the target holds in the world, where `acted` says whether its line acted on the way there.
pub(crate) fn holds<G: Game>(game: &G, world: &G::World, acted: bool, want: Want) -> bool
    requires { G.fits game.now world.now }
    ensures { result ≡ holds_in G.Game game.now world.now acted want }
{
    match want {
        Want::Reading(quantity, op, value) => reads(op, value, game.reading(world, quantity)),
        Want::Line(_) => acted,
        Want::Exit => reads(Op::NotEqual, 0, game.reading(world, Quantity::Exited)),
    }
}

/// Whether the target is a line that acted in the last step.
pub(crate) fn acts<G: Game>(game: &G, world: &G::World, want: Want) -> bool
    requires { G.fits game.now world.now }
    ensures { result ≡ acts_now G.Game game.now world.now want }
{
    match want {
        Want::Line(line) => game.acted(world, line),
        Want::Reading(_, _, _) => false,
        Want::Exit => false,
    }
}
