//! How long a world's forks and writes take.
//!
//!     fork_speed                    what a fork shows on small maps
//!     fork_speed time               the same, with nanoseconds a call
//!     fork_speed time WAD MAP       on a map of a WAD
#![tactic(auto)]

ghost use Rattle.std.specs.Prelude.{◌≡◌};
ghost use Rattle.cow_world.specs.Fits.{FitsLevel};

mod calls;
mod maps;

use anyhow::{Context, bail};
use calls::{Call, spawned};
use cow_world::World;
use map_geometry::Level;
use std::rt::{Env, Files};
use std::time::{CpuClock, Duration};
use std::{env, fs};

/// How often each call is made where times are printed, in each of some rounds, and where they aren't.
const MANY: u32 = 200_000;

const ROUNDS: u32 = 5;

const FEW: u32 = 200;

/// A time in nanoseconds.
fn nanos(time: Duration) -> u64 {
    time.as_secs()
        .wrapping_mul(1_000_000_000)
        .wrapping_add(u64::from(time.subsec_nanos()))
}

/// Makes a call many times: what the calls answer, added up, and how long they take on the processor, by the fastest
/// round.
fn time_call(
    rt: &(impl CpuClock + AllocGlobal),
    call: Call,
    level: &Level,
    world: &mut World,
) -> anyhow::Result<(u64, u64)>
    requires { FitsLevel level.now world.old }
    ensures { world.new ≡ world.old }
{
    let mut sum = 0u64;
    let mut least = u64::MAX;
    for _round in 0..ROUNDS {
        let start = nanos(rt.thread_cpu_time()?);
        sum = call.sum(rt.alloc(), level, world, MANY)?;
        least = least.min(nanos(rt.thread_cpu_time()?).wrapping_sub(start));
    }
    Ok((sum, least))
}

/// Makes each call many times, and prints how long one takes.
fn time_calls(
    rt: &(impl Print + CpuClock + AllocGlobal),
    name: &str,
    level: &Level,
) -> anyhow::Result<()> {
    let mut world = spawned(rt.alloc(), level)?;
    time_in(rt, name, level, &mut world)
}

fn time_in(
    rt: &(impl Print + CpuClock + AllocGlobal),
    name: &str,
    level: &Level,
    world: &mut World,
) -> anyhow::Result<()>
    requires { FitsLevel level.now world.old }
{
    for call in Call::ALL {
        let (sum, least) = time_call(rt, call, level, world)?;
        let each = least / u64::from(MANY);
        println!(rt; "{name} {call}: {sum}, {each} ns")?;
    }
    Ok(())
}

/// Makes each call a few times, and prints what they answer, added up.
fn add_calls(rt: &(impl Print + AllocGlobal), name: &str, level: &Level) -> anyhow::Result<()> {
    let mut world = spawned(rt.alloc(), level)?;
    add_in(rt, name, level, &mut world)
}

fn add_in(
    rt: &(impl Print + AllocGlobal),
    name: &str,
    level: &Level,
    world: &mut World,
) -> anyhow::Result<()>
    requires { FitsLevel level.now world.old }
{
    for call in Call::ALL {
        let sum = call.sum(rt.alloc(), level, world, FEW)?;
        println!(rt; "{name} {call}: {sum}")?;
    }
    Ok(())
}

fn run<R: Print + CpuClock + Env + Files + AllocGlobal>(rt: &R) -> anyhow::Result<()> {
    let words: Vec<String> = env::args(rt)?.skip(1).collect(rt.alloc())?;
    match words.as_slice() {
        [] => {
            for map in maps::ALL {
                add_calls(rt, map.name(), &map.level(rt.alloc())?)?;
            }
        }
        [time] if time.as_str() == "time" => {
            for map in maps::ALL {
                time_calls(rt, map.name(), &map.level(rt.alloc())?)?;
            }
        }
        [time, wad, map] if time.as_str() == "time" => {
            let bytes = fs::read(rt, wad.as_str())?;
            let map = map.parse::<u8>().context("the map")?;
            time_calls(
                rt,
                wad.as_str(),
                &maps::level_of(rt.alloc(), bytes, 1, map)?,
            )?;
        }
        _ => bail!("fork_speed [time [WAD MAP]]"),
    }
    Ok(())
}

fn main(rt: HostRuntime) -> anyhow::Result<()> {
    run(&rt)
}
