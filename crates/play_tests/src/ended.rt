//! How much a world keeps of movers that have ended.
ghost use Rattle.std.specs.Prelude.{◌≡◌, OnOk};
ghost use Rattle.play_tests.specs.Open.{IsOpen};

use crate::levels::{opened, sample};
use crate::rows::{counted, expect, numbers, word};
use cow_world::{FloorKind, Thinker, World};
use doom_edge::{Memory, Steps};
use map_geometry::Level;
use std::alloc::Global;
use std::process::Abort;
use std::test::Fail;

const FLOOR: Thinker = Thinker::Floor {
    sector: 1,
    kind: FloorKind::ToLowest,
    dest: 0,
};

/// How many movers there are.
const COUNT: u32 = 100;

/// In which order they end, as the step from one place to the next, in a circle: from the first on, from the last on,
/// each third one, and mixed.
const STEPS: &str = "\
1
99
3
37";

/// 50 of 100 that have ended are half; 32 of the 50 that are left are more than half; and the last 18 are too few.
const KEPT: i64 = 18;

fn push_all(level: &Level, world: &mut World, steps: &mut Steps) -> Result<(), Memory>
    requires { IsOpen level.now world.old }
    ensures { OnOk result (IsOpen level.now world.new) }
{
    for _ in 0..COUNT {
        world.push_thinker(FLOOR, steps)?;
    }
    Ok(())
}

/// Ends a mover, and lets go of those that have ended where they are many.
fn end(level: &Level, world: &mut World, place: u32, steps: &mut Steps) -> Result<(), Memory>
    requires { IsOpen level.now world.old }
    ensures { OnOk result (IsOpen level.now world.new) }
{
    if place < world.thinker_count() {
        world.set_thinker(place, Thinker::Ended, steps)?;
    }
    world.forget_ended(steps)?;
    Ok(())
}

fn end_all(level: &Level, world: &mut World, step: u32, steps: &mut Steps) -> Result<(), Memory>
    requires { IsOpen level.now world.old }
    ensures { OnOk result (IsOpen level.now world.new) }
{
    let mut place = 0u32;
    for _ in 0..COUNT {
        end(level, world, place, steps)?;
        place = place.wrapping_add(step) % COUNT;
    }
    Ok(())
}

/// How many items a world copies to have pages of its own.
fn copied(world: &mut World) -> Result<i64, Memory>
    ensures { world.new ≡ world.old }
{
    let mut steps = Steps::new();
    world.own_pages(&mut steps)?;
    Ok(counted(steps.pages()))
}

/// How many of the movers a world keeps when all have ended.
fn kept_of(level: &Level, world: &mut World, step: u32) -> Result<i64, Memory>
    requires { IsOpen level.now world.old }
{
    let mut steps = Steps::new();
    let others = copied(world)?;
    push_all(level, world, &mut steps)?;
    end_all(level, world, step, &mut steps)?;
    Ok(copied(world)?.wrapping_sub(others))
}

fn kept_after(alloc: Global, level: &Level, step: u32) -> Result<i64, Fail> {
    let mut world = opened(alloc, level)?;
    Ok(kept_of(level, &mut world, step)?)
}

fn expect_kept(rt: &impl Abort, alloc: Global, level: &Level) -> Result<(), Fail> {
    for line in STEPS.lines() {
        let step = word(&numbers(alloc, line)?, 0);
        expect(rt, line, &[kept_after(alloc, level, step)?], &[KEPT]);
    }
    Ok(())
}

#[test]
fn movers_that_end(rt: HostRuntime) -> Result<(), Fail> {
    let level = sample(rt.alloc())?;
    expect_kept(&rt, rt.alloc(), &level)
}
