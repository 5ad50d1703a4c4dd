//! The game as the crates above know it.
ghost use Rattle.std.specs.Prelude.{◌≡◌, ℕ, ℤ, ◌≤◌, ◌↔◌, Bool, Option, false, IfOk, OnOk, IsNone};
ghost use Rattle.doom_edge.specs.Counts.{raised};
ghost use Rattle.lmp_codec.specs.declared.input.Tic.{Tic};
ghost use Rattle.game_trait.specs.declared.shown.Shown.{Shown};
ghost use Rattle.game_trait.specs.declared.shown.Quantity.{Quantity};
ghost use Rattle.game_trait.specs.Shown.{IsHalted};

use crate::shown::{Quantity, Shown};
use doom_edge::{Memory, Steps};
use lmp_codec::Tic;
use std::alloc::Global;

/// A game: a start, a step for each tic, and what a world shows.
///
/// A world is seen as what it means, and two worlds are equal where they mean the same. The world after a step depends
/// on nothing but the world before it and the tic. After want of memory in a step nothing is said of its world: it is
/// spoilt, and may be used no more.
pub trait Game {
    type World: Drop;

    /// The world is one of this game, and is not spoilt.
    ghost fits: { Self → Self.World → Type 0 };

    /// The world before the first tic.
    ghost opening: { Self → Self.World };

    /// The world after one more tic.
    ghost after: { Self → Self.World → Tic → Self.World };

    /// What a world shows.
    ghost shown_of: { Self → Self.World → Shown };

    /// The reading of a quantity.
    ghost reading_of: { Self → Self.World → Quantity → Option ℤ };

    /// Whether a line acted in the last step.
    ghost acted_of: { Self → Self.World → ℕ → Bool };

    /// The world before the first tic. No line has acted in it.
    fn start(&self, alloc: Global) -> Result<Self::World, Memory>
        ensures opening { IfOk result (λ world. world ≡ opening self.now) }
        ensures fitting { IfOk result (fits self.now) }
        ensures none_acted { (line : ℕ) → acted_of self.now (opening self.now) line ≡ false };

    /// Plays one tic: one tic step. After want of memory the world is spoilt.
    fn step(
        &self,
        alloc: Global,
        world: &mut Self::World,
        tic: Tic,
        steps: &mut Steps,
    ) -> Result<(), Memory>
        requires { fits self.now world.old }
        ensures after { OnOk result (world.new ≡ after self.now world.old tic) }
        ensures fitting { OnOk result (fits self.now world.new) }
        ensures tics { OnOk result (steps.new.tics ≡ raised steps.old.tics 1) }
        ensures tics_never_fall { steps.old.tics ≤ steps.new.tics }
        ensures pages_never_fall { steps.old.pages ≤ steps.new.pages };

    /// A second world of the same meaning, which a step of the first leaves as it is. It takes no tic step, and leaves
    /// its world as it was, also where memory is wanting.
    fn fork(
        &self,
        alloc: Global,
        world: &mut Self::World,
        steps: &mut Steps,
    ) -> Result<Self::World, Memory>
        requires { fits self.now world.old }
        ensures same { IfOk result (λ forked. forked ≡ world.old) }
        ensures kept { world.new ≡ world.old }
        ensures tics { steps.new.tics ≡ steps.old.tics }
        ensures pages_never_fall { steps.old.pages ≤ steps.new.pages };

    /// Gives a world pages of its own, so that no later write or fork of it touches what another world has. It means
    /// the same after as before, also where memory is wanting, and no tic step is taken.
    fn own_pages(
        &self,
        alloc: Global,
        world: &mut Self::World,
        steps: &mut Steps,
    ) -> Result<(), Memory>
        requires { fits self.now world.old }
        ensures kept { world.new ≡ world.old }
        ensures fitting { fits self.now world.new }
        ensures tics { steps.new.tics ≡ steps.old.tics }
        ensures pages_never_fall { steps.old.pages ≤ steps.new.pages };

    /// What the world shows.
    fn shown(&self, world: &Self::World) -> Shown
        requires { fits self.now world.now }
        ensures { result ≡ shown_of self.now world.now };

    /// The reading of a quantity; `None` exactly where the world is halted.
    fn reading(&self, world: &Self::World, quantity: Quantity) -> Option<i64>
        requires { fits self.now world.now }
        ensures reading { result ≡ reading_of self.now world.now quantity }
        ensures halted { IsNone result ↔ IsHalted (shown_of self.now world.now) };

    /// Whether the line acted in the last step. None acts in a halted world.
    fn acted(&self, world: &Self::World, line: u32) -> bool
        requires { fits self.now world.now }
        ensures acted { result ≡ acted_of self.now world.now line }
        ensures halted { IsHalted (shown_of self.now world.now) → result ≡ false };
}
