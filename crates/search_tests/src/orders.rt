//! Searches under an order: the number found, the turns, and the tic steps.
use crate::searches::{ahead, space};
use brute_run::{Simulated, simulate};
use brute_targets::Op;
use doom_edge::Steps;
use game_trait::Game;
use sample_games::SampleGame;
use std::alloc::Global;
use std::process::Abort;
use std::test::Fail;

/// Searches two tics of 0 to `high` ahead. The game's own count of its steps agrees with the counter.
fn assert_search(
    rt: &impl Abort,
    alloc: Global,
    high: i32,
    op: Op,
    x: i64,
    order: &[u8],
    want: (Option<u64>, u64, Option<u64>),
) -> Result<(), Fail> {
    assert!(rt; order.iter().all(|hand| *hand < 64));
    let game = SampleGame::new();
    let mut kept = game.start(alloc)?;
    let space = space(alloc, 2, 0, high, 0)?;
    let wants = ahead(alloc, op, x)?;
    let mut steps = Steps::new();
    let found = simulate(alloc, &game, &mut kept, &space, &wants, order, &mut steps)?;
    let (first, turns, tics) = want;
    assert_eq!(rt; found, Simulated { first, turns });
    assert_eq!(rt; steps.tics(), game.steps_made());
    assert_eq!(rt; tics.unwrap_or(steps.tics()), steps.tics());
    Ok(())
}

#[test]
fn the_order_changes_the_turns_alone(rt: HostRuntime) -> Result<(), Fail> {
    let later = [0, 0, 0, 0, 0, 0, 0, 0, 0, 0, 0, 0, 0, 0, 1];
    // how far a tic goes, the target, the order, and what is found, the turns, and where it is known the tic steps
    for (high, op, x, order, want) in [
        (2, Op::Equal, 3, [].as_slice(), (Some(5), 15, Some(8))),
        (
            2,
            Op::Equal,
            3,
            [0, 0, 1, 2, 1].as_slice(),
            (Some(5), 17, Some(8)),
        ),
        (
            2,
            Op::Equal,
            3,
            [3, 3, 3, 0].as_slice(),
            (Some(5), 18, Some(8)),
        ),
        (
            19,
            Op::GreaterEqual,
            5,
            [0, 1].as_slice(),
            (Some(5), 20, None),
        ),
        (
            19,
            Op::GreaterEqual,
            5,
            later.as_slice(),
            (Some(5), 18, Some(6 + 1)),
        ),
        (2, Op::Equal, 99, [].as_slice(), (None, 20, Some(12))),
    ] {
        assert_search(&rt, rt.alloc(), high, op, x, order, want)?;
    }
    Ok(())
}
