//! Laws of replays, for the proofs above.
ghost use Rattle.std.specs.Prelude.{◌≡◌, List, ◌++◌};
ghost use Rattle.lmp_codec.specs.declared.input.Tic.{Tic};
ghost use Rattle.game_trait.specs.Replay.{after_all, replay};

use crate::game::Game;

/// The replay of tics and of more tics after them is the replay of the more from where the first ones end.
pub fn replays_append<G: Game>()
    ensures after_all { (game : G) (world : G.World) (first more : List Tic) → after_all G.Game game world (first ++ more) ≡ after_all G.Game game (after_all G.Game game world first) more }
    ensures replay { (game : G) (first more : List Tic) → replay G.Game game (first ++ more) ≡ after_all G.Game game (replay G.Game game first) more }
{}
