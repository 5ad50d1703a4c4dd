//! Playing on from a frame, and making the frames, on the list of the worlds that are kept.
ghost use Rattle.std.specs.Prelude.{◌≡◌, ◌+◌, ◌-◌, ◌*◌, ◌<◌, ◌≤◌, max, length, take, IfOk, OnOk};
ghost use Rattle.doom_edge.specs.Counts.{raised};
ghost use Rattle.game_trait.specs.Replay.{after_all, IsReplay};
ghost use Rattle.key_frames.specs.Frames.{frame_tics, AreFramesOn, StayFramesOn};

use doom_edge::{Memory, Steps};
use game_trait::Game;
use lmp_codec::Tic;
use std::alloc::Global;

/// There is a frame every so many tics.
pub const FRAME_TICS: usize = 256;

/// A fork of the world that has played these tics more. The world itself is left as it was.
fn fork_after<G: Game>(
    alloc: Global,
    game: &G,
    world: &mut G::World,
    tics: &[Tic],
    steps: &mut Steps,
) -> Result<G::World, Memory>
    requires { G.fits game.now world.old }
    ensures kept { world.new ≡ world.old }
    ensures played { IfOk result (λ forked. forked ≡ after_all G.Game game.now world.old tics.now) }
    ensures fitting { IfOk result (G.fits game.now) }
    ensures tics { OnOk result (steps.new.tics ≡ raised steps.old.tics (length tics.now)) }
    ensures tics_never_fall { steps.old.tics ≤ steps.new.tics }
    ensures pages_never_fall { steps.old.pages ≤ steps.new.pages }
{
    let mut forked = game.fork(alloc, world, steps)?;
    'playing: for tic in tics {
        game.step(alloc, &mut forked, *tic, steps)?;
    }
    Ok(forked)
}

/// The replay of the first `to` tics, played on from the frame at this place of the list. The frames are left
/// as they were.
pub fn world_from<G: Game>(
    alloc: Global,
    game: &G,
    frames: &mut Vec<G::World>,
    place: usize,
    tics: &[Tic],
    to: usize,
    steps: &mut Steps,
) -> Result<G::World, Memory>
    requires belong { AreFramesOn G.Game game.now tics.now frames.old.items }
    requires there { place < length frames.old.items }
    requires from { frame_tics * place ≤ to }
    requires inside { to ≤ length tics.now }
    ensures kept { frames.new.items ≡ frames.old.items }
    ensures world { IfOk result (IsReplay G.Game game.now (take to tics.now)) }
    ensures tics { OnOk result (steps.new.tics ≡ raised steps.old.tics (to - frame_tics * place)) }
    ensures tics_never_fall { steps.old.tics ≤ steps.new.tics }
    ensures pages_never_fall { steps.old.pages ≤ steps.new.pages }
{
    let more = &tics[FRAME_TICS * place..to];
    fork_after(alloc, game, &mut frames[place], more, steps)
}

/// Makes the frames that are not kept yet, up to this place. Without memory those that were made stay.
pub fn extend<G: Game>(
    alloc: Global,
    game: &G,
    frames: &mut Vec<G::World>,
    place: usize,
    tics: &[Tic],
    steps: &mut Steps,
) -> Result<(), Memory>
    requires belong { AreFramesOn G.Game game.now tics.now frames.old.items }
    requires inside { frame_tics * place ≤ length tics.now }
    ensures belong { StayFramesOn G.Game game.now tics.now frames.old.items frames.new.items }
    ensures made { OnOk result (length frames.new.items ≡ max (length frames.old.items) (place + 1)) }
    ensures none_dropped { length frames.old.items ≤ length frames.new.items }
    ensures none_past { length frames.new.items ≤ max (length frames.old.items) (place + 1) }
    ensures tics { let made = place + 1 - length frames.old.items in
        OnOk result (steps.new.tics ≡ raised steps.old.tics (frame_tics * made)) }
    ensures tics_never_fall { steps.old.tics ≤ steps.new.tics }
    ensures pages_never_fall { steps.old.pages ≤ steps.new.pages }
{
    'making: while frames.len() <= place {
        let len = frames.len();
        let frame = world_from(alloc, game, frames, len - 1, tics, FRAME_TICS * len, steps)?;
        frames.push(frame)?;
    }
    Ok(())
}
