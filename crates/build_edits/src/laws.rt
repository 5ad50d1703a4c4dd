//! What holds after whole lists of edits.
ghost use Rattle.std.specs.Prelude.{◌≡◌, List};
ghost use Rattle.game_trait.specs.Replay.{IsReplay};
ghost use Rattle.build_edits.specs.Built.{Built};
ghost use Rattle.build_edits.specs.Lists.{Edit, after_edits, WentThrough};

use game_trait::Game;

/// After any list of edits, with worlds shown in between, a build has the game that it had, and the tics and
/// the cursor that the edits come to on a list; and so the world that it shows is the plain replay of the
/// tics before that cursor.
pub fn lists_of_edits<G: Game>()
    ensures game { (edits : List Edit) (old new : Built G) → WentThrough edits old new → new.game ≡ old.game }
    ensures tape { (edits : List Edit) (old new : Built G) → WentThrough edits old new
        → new.tape ≡ after_edits edits old.tape }
    ensures world { (edits : List Edit) (old new : Built G) (world : G.World) → WentThrough edits old new
        → IsReplay G.Game new.game new.tape.before world
        → IsReplay G.Game old.game (after_edits edits old.tape).before world }
{}
