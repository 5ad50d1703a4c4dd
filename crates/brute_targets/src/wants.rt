//! All targets of a search.

ghost use Rattle.std.specs.Prelude.{◌≡◌, ℕ, ◌<◌, ◌≤◌, Bool, List, length};
ghost use Rattle.lmp_codec.specs.declared.input.Tic.{Tic};
ghost use Rattle.game_trait.specs.Replay.{after_all};
ghost use Rattle.brute_targets.specs.Targets.{is_met, all_hold, acts_at};
ghost use Rattle.brute_targets.specs.Meets.{tics_meet, AreLines};
ghost use Rattle.brute_targets.specs.Lines.{has_bit};

use crate::bits::{has_bit, join_lines, line_bit};
use crate::want::{Want, acts, holds};
use game_trait::{Game, Shown};
use std::marker::Model;

/// How many targets a search has at most.
pub const MAX_WANTS: usize = 16;

/// The targets of a search. Contracts see them as a list.
#[derive(Debug, Drop)]
pub struct Wants {
    list: Vec<Want>,
}

impl Model for Wants {
    ghost use Rattle.std.specs.Prelude.{List, length, ◌≤◌};
    ghost use Rattle.brute_targets.specs.declared.want.Want.{Want};

    ghost Value = { List Want };

    ghost view = { λ wants. wants.list.items };

    ghost invariant = { λ wants. length wants.list.items ≤ 16 };
}

impl Wants {
    /// These targets.
    pub fn new(list: Vec<Want>) -> Wants
        requires { length list.items ≤ 16 }
        ensures { result ≡ list.items }
    {
        Wants { list }
    }

    /// The line bits of the last step to this world: bit i is set exactly where target i is a line that acted in it.
    pub fn lines_met<G: Game>(&self, game: &G, world: &G::World) -> u16
        requires { G.fits game.now world.now }
        ensures { (i : ℕ) → has_bit result i ≡ acts_at G.Game game.now world.now self.now i }
    {
        let mut lines = 0;
        for (i, want) in self.list.iter().enumerate() {
            lines = join_lines(lines, line_bit(acts(game, world, *want), i));
        }
        lines
    }

    /// Whether the world meets the targets, where `lines` are the line bits of all steps on the way there. A halted
    /// world meets none.
    pub fn met<G: Game>(&self, game: &G, world: &G::World, lines: u16) -> bool
        requires { G.fits game.now world.now }
        ensures met { result ≡ is_met G.Game game.now world.now (has_bit lines) self.now }

        // Where the tics lead there from a kept world, and these are their line bits, it is whether the tics meet.
        ensures meets { (kept : G.World) (tics : List Tic) → world.now ≡ after_all G.Game game.now kept tics
            → AreLines G.Game game.now kept self.now tics lines → result ≡ tics_meet G.Game game.now kept self.now tics }
    {
        if let Shown::Halted { .. } = game.shown(world) {
            return false;
        }
        self.all_hold(game, world, lines)
    }

    /// Whether all targets hold in a world.
    fn all_hold<G: Game>(&self, game: &G, world: &G::World, lines: u16) -> bool
        requires { G.fits game.now world.now }
        ensures { result ≡ all_hold G.Game game.now world.now (has_bit lines) 0 self.now }
    {
        for (i, want) in self.list.iter().enumerate() {
            if !holds(game, world, has_bit(lines, i), *want) {
                return false;
            }
        }
        true
    }
}
