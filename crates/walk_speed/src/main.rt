//! How long the walks over a level take.
//!
//!     walk_speed                         what the calls answer on small maps, added up
//!     walk_speed time                    the same, with nanoseconds a call
//!     walk_speed time WAD EPISODE MAP    on a map of a WAD
#![tactic(auto)]

mod calls;
mod maps;

use anyhow::{Context, bail};
use calls::Call;
use map_geometry::Level;
use std::rt::{Env, Files};
use std::time::{CpuClock, Duration};
use std::{env, fs};

/// How often each call is made where times are printed, in each of some rounds, and where they aren't.
const MANY: u32 = 200_000;

const ROUNDS: u32 = 5;

const FEW: u32 = 200;

/// A time in nanoseconds.
fn nanos(time: Duration) -> u64 {
    time.as_secs()
        .wrapping_mul(1_000_000_000)
        .wrapping_add(u64::from(time.subsec_nanos()))
}

/// Makes each call many times, and prints what they answer, added up, and how long one takes on the processor, by
/// the fastest round.
fn time_calls(
    rt: &(impl Print + CpuClock + AllocGlobal),
    name: &str,
    level: &Level,
) -> anyhow::Result<()> {
    for call in Call::ALL {
        let mut sum = 0u64;
        let mut least = u64::MAX;
        for _ in 0..ROUNDS {
            let start = nanos(rt.thread_cpu_time()?);
            sum = call.sum(rt.alloc(), level, MANY)?;
            least = least.min(nanos(rt.thread_cpu_time()?).wrapping_sub(start));
        }
        let each = least / u64::from(MANY);
        println!(rt; "{name} {call}: {sum}, {each} ns")?;
    }
    Ok(())
}

/// Makes each call a few times, and prints what they answer, added up.
fn add_calls(rt: &(impl Print + AllocGlobal), name: &str, level: &Level) -> anyhow::Result<()> {
    for call in Call::ALL {
        let sum = call.sum(rt.alloc(), level, FEW)?;
        println!(rt; "{name} {call}: {sum}")?;
    }
    Ok(())
}

fn run<R: Print + CpuClock + Env + Files + AllocGlobal>(rt: &R) -> anyhow::Result<()> {
    let words: Vec<String> = env::args(rt)?.skip(1).collect(rt.alloc())?;
    match words.as_slice() {
        [] => {
            for map in maps::ALL {
                add_calls(rt, map.name(), &map.level(rt.alloc())?)?;
            }
        }
        [time] if time.as_str() == "time" => {
            for map in maps::ALL {
                time_calls(rt, map.name(), &map.level(rt.alloc())?)?;
            }
        }
        [time, wad, episode, map] if time.as_str() == "time" => {
            let bytes = fs::read(rt, wad.as_str())?;
            let episode = episode.parse::<u8>().context("the episode")?;
            let map = map.parse::<u8>().context("the map")?;
            time_calls(
                rt,
                wad.as_str(),
                &maps::level_of(rt.alloc(), bytes, episode, map)?,
            )?;
        }
        _ => bail!("walk_speed [time [WAD EPISODE MAP]]"),
    }
    Ok(())
}

fn main(rt: HostRuntime) -> anyhow::Result<()> {
    run(&rt)
}
