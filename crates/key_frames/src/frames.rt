ghost use Rattle.std.specs.Prelude.{◌≡◌, ◌+◌, ◌-◌, ◌/◌, ◌<◌, ◌≤◌, min, max, List, length, take, IfOk, OnOk};
ghost use Rattle.doom_edge.specs.Counts.{raised};
ghost use Rattle.lmp_codec.specs.declared.input.Tic.{Tic};
ghost use Rattle.game_trait.specs.Replay.{IsReplay};
ghost use Rattle.key_frames.specs.Frames.{frame_tics, frame_tic, reach, frame_below, not_past, AreFrames, AreFramesOn, StayFramesOn};

use crate::play::{FRAME_TICS, extend, world_from};
use doom_edge::{Memory, Steps};
use game_trait::Game;
use lmp_codec::Tic;
use std::alloc::Global;
use std::marker::Model;

/// Worlds of a game along a list of tics: those at tic 0, 256, 512 and so on. Seen as the list of them.
///
/// They belong to a game and to tics where each is the plain replay of the tics before it. Neither the game
/// nor the tics are kept here, they are handed to each call. So the owner of the tics says by [`Frames::cut`]
/// from where on an edit has changed them.
#[derive(Drop)]
pub struct Frames<G: Game> {
    frames: Vec<G::World>,
}

impl<G: Game> Model for Frames<G> {
    ghost use Rattle.std.specs.Prelude.{List, length, ◌<◌, ◌^◌};
    ghost use Rattle.key_frames.specs.Frames.{reach};

    ghost Value = { List G.World };

    ghost view = { λ f. f.frames.items };

    ghost invariant = { λ f. (0 < length f.frames.items) × (reach f.frames.items < 2 ^ 32) };
}

impl<G: Game> Frames<G> {
    /// The world before the first tic alone, which belongs to this game and any tics.
    pub fn new(alloc: Global, game: &G) -> Result<Frames<G>, Memory>
        ensures belong { IfOk result (λ frames. (tics : List Tic) → AreFrames G.Game game.now tics frames) }
        ensures reach { IfOk result (λ frames. reach frames ≡ 0) }
    {
        let mut frames = Vec::new(alloc);
        frames.push(game.start(alloc)?)?;
        Ok(Frames { frames })
    }

    /// The tic of the last frame.
    pub fn reach(&self) -> u32
        ensures { result ≡ reach self.now }
    {
        (FRAME_TICS * (self.frames.len() - 1)) as u32
    }

    /// The world after the first `t` tics, where the frames belong to tics that begin with these: more than these
    /// need not be shown. It is played on from the last frame that is not past `t`, by one
    /// tic step for each tic between, and the frames on the way are kept. So where the first `t` tics were
    /// played before, less than [`FRAME_TICS`] steps are taken. Without memory the frames that were made
    /// stay.
    pub fn world_at(
        &mut self,
        alloc: Global,
        game: &G,
        t: u32,
        tics: &[Tic],
        steps: &mut Steps,
    ) -> Result<G::World, Memory>
        requires belong { AreFramesOn G.Game game.now tics.now self.old }
        requires inside { t ≤ length tics.now }
        ensures world { IfOk result (IsReplay G.Game game.now (take t tics.now)) }
        ensures tics { OnOk result (steps.new.tics ≡ raised steps.old.tics (t - frame_below (reach self.old) t)) }
        ensures near { OnOk result (frame_tic t ≤ reach self.old → steps.new.tics < steps.old.tics + frame_tics) }
        ensures reach { OnOk result (reach self.new ≡ max (reach self.old) (frame_tic t)) }
        ensures none_dropped { reach self.old ≤ reach self.new }
        ensures none_past { reach self.new ≤ max (reach self.old) (frame_tic t) }
        ensures belong { StayFramesOn G.Game game.now tics.now self.old self.new }
        ensures tics_never_fall { steps.old.tics ≤ steps.new.tics }
        ensures pages_never_fall { steps.old.pages ≤ steps.new.pages }
    {
        let to = t as usize;
        let place = to / FRAME_TICS;
        extend(alloc, game, &mut self.frames, place, tics, steps)?;
        world_from(alloc, game, &mut self.frames, place, tics, to, steps)
    }

    /// Drops the frames past `t`, and no other. Those that are left belong to all tics that begin with the
    /// same `t` tics.
    pub fn cut(&mut self, t: u32)
        ensures left { self.new ≡ not_past self.old t }
        ensures reach { reach self.new ≡ frame_below (reach self.old) t }
        ensures belong { (game : G) (tics other : List Tic)
            → AreFrames G.Game game tics self.old → take t tics ≡ take t other → t ≤ length other
            → AreFrames G.Game game other self.new }
    {
        self.frames.truncate(t as usize / FRAME_TICS + 1);
    }
}
