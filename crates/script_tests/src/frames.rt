ghost use Rattle.std.specs.Prelude.{◌≡◌, ◌++◌, [], length, IfOk};
ghost use Rattle.key_frames.specs.Frames.{AreFrames};

use doom_edge::{Memory, Steps};
use game_trait::Game;
use key_frames::Frames;
use lmp_codec::Tic;
use sample_games::{SampleGame, SampleWorld};
use std::alloc::Global;
use std::process::Abort;
use std::test::Fail;

/// 600 tics, each of which moves ahead by one.
fn tics_ahead(alloc: Global) -> Result<Vec<Tic>, Fail>
    ensures { IfOk result (λ tics. length tics.items ≡ 600) }
{
    let tic = Tic::new(1, 0, 0, 0).ok_or("a tic")?;
    Ok(vec![in alloc; tic; 600]?)
}

/// The world after so many of them.
fn moved(tics: u16) -> Result<SampleWorld, Memory> {
    Ok(SampleWorld {
        tics: u64::from(tics),
        x: i32::from(tics),
        acts: false,
        halted: false,
    })
}

#[derive(Clone, Copy)]
enum Call {
    /// The world after so many tics is asked for, and so many tic steps are taken.
    WorldAt(u16, u64),
    /// The frames past this tic are dropped.
    Cut(u32),
}

/// Makes the call. The game's own count of its steps rises by as many as the counter does.
fn assert_answers(
    rt: &impl Abort,
    alloc: Global,
    game: &SampleGame,
    tics: &[Tic],
    frames: &mut Frames<SampleGame>,
    call: Call,
)
    requires { AreFrames ⟦<SampleGame as Game>⟧ game.now (tics.now ++ []) frames.old }
    ensures { AreFrames ⟦<SampleGame as Game>⟧ game.now (tics.now ++ []) frames.new }
{
    match call {
        Call::WorldAt(to, taken) => {
            assert!(rt; to as usize <= tics.len());
            let mut steps = Steps::new();
            let made = game.steps_made();
            let world = frames.world_at(alloc, game, u32::from(to), tics, &mut steps);
            assert_eq!(rt; world, moved(to));
            assert_eq!(rt; steps.tics(), taken, "up to {to}");
            assert_eq!(rt; game.steps_made().wrapping_sub(made), taken);
        }
        Call::Cut(to) => {
            assert!(rt; to as usize <= tics.len());
            frames.cut(to);
        }
    }
}

#[test]
fn a_replay_goes_on_from_the_last_frame(rt: HostRuntime) -> Result<(), Fail> {
    let game = SampleGame::new();
    let tics = tics_ahead(rt.alloc())?;
    let mut frames = Frames::new(rt.alloc(), &game).map_err(|_| "memory")?;
    for (call, reach) in [
        (Call::WorldAt(0, 0), 0),
        (Call::WorldAt(255, 255), 0),
        (Call::WorldAt(256, 256), 256),
        (Call::WorldAt(600, 344), 512),
        (Call::WorldAt(599, 87), 512),
        (Call::WorldAt(511, 255), 512),
        (Call::WorldAt(512, 0), 512),
        (Call::Cut(512), 512),
        (Call::Cut(511), 256),
        (Call::WorldAt(600, 344), 512),
        (Call::Cut(0), 0),
        (Call::WorldAt(600, 600), 512),
    ] {
        assert_answers(&rt, rt.alloc(), &game, &tics, &mut frames, call);
        assert_eq!(rt; frames.reach(), reach);
    }
    Ok(())
}

/// A call in which this step or fork finds no memory keeps the frames up to `reach`, and the next goes on
/// from there.
#[derive(Clone, Copy)]
struct Failing {
    step: u64,
    fork: u64,
    reach: u32,
    taken: u64,
}

fn assert_goes_on(
    rt: &impl Abort,
    alloc: Global,
    tics: &[Tic],
    failing: Failing,
) -> Result<(), Fail> {
    assert_eq!(rt; tics.len(), 600);
    let game = SampleGame::failing(failing.step, failing.fork);
    let mut frames = Frames::new(alloc, &game).map_err(|_| "memory")?;
    let world = frames.world_at(alloc, &game, 600, tics, &mut Steps::new());
    assert_eq!(rt; world, Err(Memory));
    assert_eq!(rt; frames.reach(), failing.reach);
    let call = Call::WorldAt(600, failing.taken);
    assert_answers(rt, alloc, &game, tics, &mut frames, call);
    assert_eq!(rt; frames.reach(), 512);
    Ok(())
}

#[test]
fn frames_that_were_made_stay_without_memory(rt: HostRuntime) -> Result<(), Fail> {
    let tics = tics_ahead(rt.alloc())?;
    for (step, fork, reach, taken) in [
        (0, 1, 0, 600),
        (0, 2, 256, 344),
        (0, 3, 512, 88),
        (256, 0, 0, 600),
        (257, 0, 256, 344),
        (600, 0, 512, 88),
    ] {
        let failing = Failing {
            step,
            fork,
            reach,
            taken,
        };
        assert_goes_on(&rt, rt.alloc(), &tics, failing)?;
    }
    Ok(())
}
