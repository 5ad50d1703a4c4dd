//! Searches by workers.
use crate::searches::{ahead, space};
use brute_ranges::Space;
use brute_run::first_match;
use brute_targets::{Op, Want, Wants};
use doom_edge::{Gate, Memory, NoGate, Steps};
use game_trait::{Game, Quantity};
use sample_games::SampleGame;
use std::alloc::Global;
use std::process::Abort;
use std::sync::atomic::{AtomicU64, Ordering};
use std::test::Fail;
use std::thread::Threads;

/// Searches with so many workers. The game's own count of its steps agrees with the counter.
fn search<R: Abort + Threads + Sync>(
    rt: &R,
    alloc: Global,
    space: &Space,
    wants: &Wants,
    workers: u32,
) -> Result<Option<u64>, Memory> {
    assert!(rt; 1 <= workers && workers <= 64);
    let game = SampleGame::new();
    let mut kept = game.start(alloc)?;
    let mut steps = Steps::new();
    let found = first_match(
        alloc, rt, &game, &mut kept, space, wants, workers, &NoGate, &mut steps,
    )?;
    assert_eq!(rt; steps.tics(), game.steps_made());
    Ok(found)
}

#[test]
fn many_workers_share_few_blocks(rt: HostRuntime) -> Result<(), Fail> {
    let space = space(rt.alloc(), 3, 0, 9, 0)?;
    for (x, want) in [
        (200, None),
        (27, Some(999)),
        (0, Some(0)),
        (3, Some(3)),
        (26, Some(899)),
    ] {
        let wants = ahead(rt.alloc(), Op::Equal, x)?;
        for workers in [1, 2, 64] {
            assert_eq!(rt; search(&rt, rt.alloc(), &space, &wants, workers)?, want);
        }
    }
    Ok(())
}

/// Holds up the first worker that comes until another one comes, or for so many turns.
#[derive(Drop)]
struct Meeting {
    first: AtomicU64,
    others: AtomicU64,
    late: AtomicU64,
}

/// How many turns it waits.
const TURNS: u32 = 1_000_000_000;

impl Gate for Meeting {
    fn begin(&self, _count: u64) {}

    fn at(&self, worker: u32, _block: u64) {
        let me = u64::from(worker).wrapping_add(1);
        let first = self
            .first
            .compare_exchange(0, me, Ordering::SeqCst, Ordering::SeqCst);
        if first != Ok(0) && first != Err(me) {
            self.others.store(1, Ordering::SeqCst);
            return;
        }
        for _ in 0..TURNS {
            if self.others.load(Ordering::SeqCst) == 1 {
                return;
            }
        }
        self.late.store(1, Ordering::SeqCst);
    }
}

// A body that does all blocks on one thread never has two workers at the gate.
#[test]
fn two_workers_are_at_the_gate(rt: HostRuntime) -> Result<(), Fail> {
    let gate = Meeting {
        first: AtomicU64::new(0),
        others: AtomicU64::new(0),
        late: AtomicU64::new(0),
    };
    let game = SampleGame::new();
    let mut kept = game.start(rt.alloc())?;
    let space = space(rt.alloc(), 2, 0, 31, 0)?;
    let wants = ahead(rt.alloc(), Op::Greater, 200)?;
    let mut steps = Steps::new();
    let found = first_match(
        rt.alloc(),
        &rt,
        &game,
        &mut kept,
        &space,
        &wants,
        2,
        &gate,
        &mut steps,
    )?;
    assert_eq!(rt; found, None);
    assert_eq!(rt; gate.late.load(Ordering::SeqCst), 0);
    Ok(())
}

#[test]
fn a_worker_may_find_no_memory(rt: HostRuntime) -> Result<(), Fail> {
    let space = space(rt.alloc(), 2, 0, 2, 0)?;
    let wants = ahead(rt.alloc(), Op::Equal, 3)?;
    for failing in 1..21 {
        let game = SampleGame::failing(0, failing);
        let mut kept = game.start(rt.alloc())?;
        let before = kept;
        let mut steps = Steps::new();
        let found = first_match(
            rt.alloc(),
            &rt,
            &game,
            &mut kept,
            &space,
            &wants,
            4,
            &NoGate,
            &mut steps,
        );
        if found.is_ok() {
            assert_eq!(rt; found, Ok(Some(5)));
        }
        assert_eq!(rt; kept, before);
    }
    Ok(())
}

/// The next number of a row that looks drawn at random, below a bound.
fn drawn(seed: &mut u64, below: u8) -> u8 {
    *seed = seed
        .wrapping_mul(6364136223846793005)
        .wrapping_add(1442695040888963407);
    ((*seed >> 33) % u64::from(below.max(1))) as u8
}

/// The least number that meets, by a plain loop over all of them: the way ahead is `x`, and where a use is asked for, line 0 acted.
fn plain_first(alloc: Global, space: &Space, x: i32, uses: bool) -> Result<Option<u64>, Memory> {
    let game = SampleGame::new();
    let mut steps = Steps::new();
    for number in 0..space.count() {
        let mut world = game.start(alloc)?;
        let mut acted = false;
        for place in 0..space.depth() {
            game.step(alloc, &mut world, space.tic_at(number, place), &mut steps)?;
            acted = acted || world.acts;
        }
        if world.x == x && (acted || !uses) {
            return Ok(Some(number));
        }
    }
    Ok(None)
}

/// A search drawn at random, by one worker, by 64 and by the plain loop.
fn assert_same<R: Abort + Threads + Sync>(
    rt: &R,
    alloc: Global,
    seed: &mut u64,
) -> Result<(), Fail> {
    let depth = usize::from(drawn(seed, 3)) + 1;
    let high = i32::from(drawn(seed, 7));
    let uses = drawn(seed, 2);
    let x = i32::from(drawn(seed, 21));
    let space = space(alloc, depth, 0, high, i32::from(uses))?;
    let mut list = vec![in alloc; Want::Reading(Quantity::X, Op::Equal, i64::from(x))]?;
    if uses == 1 {
        list.push(Want::Line(0))?;
    }
    let wants = Wants::new(list);
    let want = plain_first(alloc, &space, x, uses == 1)?;
    assert_eq!(rt; search(rt, alloc, &space, &wants, 1)?, want);
    assert_eq!(rt; search(rt, alloc, &space, &wants, 64)?, want);
    Ok(())
}

#[test]
fn one_worker_and_64_find_what_a_plain_loop_does(rt: HostRuntime) -> Result<(), Fail> {
    let mut seed = 1993;
    for _ in 0..200 {
        assert_same(&rt, rt.alloc(), &mut seed)?;
    }
    Ok(())
}
