//! How many sequences a second a search tries, over the sample game.
//!
//!     search_speed           what the searches find
//!     search_speed time      the same, with sequences a second, by 1, 2 and 4 workers
#![tactic(auto)]

ghost use Rattle.std.specs.Prelude.{◌≤◌};

use anyhow::{Context, bail};
use brute_ranges::{Range, Space, TicRanges};
use brute_run::first_match;
use brute_targets::{Op, Want, Wants};
use doom_edge::{NoGate, Steps};
use game_trait::{Game, Quantity};
use sample_games::SampleGame;
use std::alloc::Global;
use std::env;
use std::rt::{Clock, Env};
use std::thread::Threads;
use std::time::{CpuClock, Duration, Instant};

/// How many tics a sequence has, and how far a tic goes at most.
const SMALL: (usize, i32) = (3, 19);

const LARGE: (usize, i32) = (5, 24);

/// All sequences of so many tics ahead.
fn space(alloc: Global, depth: usize, high: i32) -> anyhow::Result<Space> {
    let none = Range { low: 0, high: 0 };
    let ranges = TicRanges {
        forward: Range { low: 0, high },
        side: none,
        turn: none,
        using: none,
    };
    let tics = vec![in alloc; ranges; depth]?;
    Space::new(alloc, tics, false).ok().context("no space")
}

/// A search for what no sequence meets. Answers how many sequences there are, and how many tic steps were made.
fn search<R: Threads + Sync>(
    rt: &R,
    alloc: Global,
    size: (usize, i32),
    workers: u32,
) -> anyhow::Result<(u64, u64)>
    requires { (1 ≤ workers) × (workers ≤ 64) }
{
    let space = space(alloc, size.0, size.1)?;
    let wants = Wants::new(vec![in alloc; Want::Reading(Quantity::X, Op::Less, 0)]?);
    let game = SampleGame::new();
    let mut kept = game.start(alloc).ok().context("no memory")?;
    let mut steps = Steps::new();
    let found = first_match(
        alloc, rt, &game, &mut kept, &space, &wants, workers, &NoGate, &mut steps,
    );
    match found {
        Ok(None) => Ok((space.count(), steps.tics())),
        _ => bail!("none was to be found"),
    }
}

/// Searches by so many workers, and prints what was found.
fn tell<R: Threads + Sync + Print + AllocGlobal>(rt: &R, workers: u32) -> anyhow::Result<()>
    requires { (1 ≤ workers) × (workers ≤ 64) }
{
    let (count, _) = search(rt, rt.alloc(), SMALL, workers)?;
    println!(rt; "{workers} workers: none among {count}")?;
    Ok(())
}

/// How many in a second, of so many in this time.
fn a_second(count: u64, time: Duration) -> u128 {
    u128::from(count).wrapping_mul(1_000_000) / time.as_micros().max(1)
}

/// Searches by so many workers, and prints how many sequences they tried in a second, and in a second of a processor.
fn time<R: Threads + Sync + Print + Clock + CpuClock + AllocGlobal>(
    rt: &R,
    workers: u32,
) -> anyhow::Result<()>
    requires { (1 ≤ workers) × (workers ≤ 64) }
{
    let used = rt.process_cpu_time()?;
    let start = Instant::now(rt)?;
    let (count, steps) = search(rt, rt.alloc(), LARGE, workers)?;
    let by_clock = a_second(count, start.elapsed(rt)?);
    let by_processor = a_second(count, rt.process_cpu_time()?.saturating_sub(used));
    println!(rt; "{workers} workers: {count} sequences, {steps} steps")?;
    println!(rt; "  {by_clock} a second, {by_processor} a processor second")?;
    Ok(())
}

fn run<R: Threads + Sync + Print + Clock + CpuClock + Env + AllocGlobal>(
    rt: &R,
) -> anyhow::Result<()> {
    let words: Vec<String> = env::args(rt)?.skip(1).collect(rt.alloc())?;
    match words.as_slice() {
        [] => {
            tell(rt, 1)?;
            tell(rt, 2)?;
            tell(rt, 4)
        }
        [word] if word.as_str() == "time" => {
            time(rt, 1)?;
            time(rt, 2)?;
            time(rt, 4)
        }
        _ => bail!("search_speed [time]"),
    }
}

fn main(rt: HostRuntime) -> anyhow::Result<()> {
    run(&rt)
}
