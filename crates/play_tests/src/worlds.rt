//! The world: forks, halts, and pages of its own.
ghost use Rattle.std.specs.Prelude.{◌≡◌, OnOk};
ghost use Rattle.play_tests.specs.Open.{IsOpen};

use crate::levels::{opened, sample};
use crate::rows::{counted, expect};
use cow_world::{Player, Thing, World};
use doom_edge::{Memory, Steps};
use game_trait::Halt;
use health_fx::Body;
use map_geometry::Level;
use std::alloc::Global;
use std::process::Abort;
use std::test::Fail;

/// Whether a world halted as it was told to.
fn is_halted(world: &World) -> bool {
    world.halted() == Some((7, Halt::Special(39)))
}

/// Whether a fork of what halted is halted, where a fork of the world was halted.
fn halt_a_fork(world: &mut World, steps: &mut Steps) -> Result<bool, Memory> {
    let mut fork = world.fork(steps)?;
    fork.set_halted(7, Halt::Special(39));
    is_fork_halted(&mut fork, steps)
}

fn is_fork_halted(world: &mut World, steps: &mut Steps) -> Result<bool, Memory> {
    let fork = world.fork(steps)?;
    Ok(is_halted(&fork))
}

/// Whether the fork halted, whether the origin is live, and the page steps.
fn halts(world: &mut World) -> Result<[i64; 3], Fail> {
    let mut steps = Steps::new();
    let halted = halt_a_fork(world, &mut steps)?;
    Ok([
        i64::from(halted),
        i64::from(world.halted().is_none()),
        counted(steps.pages()),
    ])
}

/// A halt leaves the origin, and a fork of a world that was not written takes no page step.
fn expect_halts(rt: &impl Abort, alloc: Global, level: &Level) -> Result<(), Fail> {
    let mut world = opened(alloc, level)?;
    expect(rt, "a halt", &halts(&mut world)?, &[1, 1, 0]);
    Ok(())
}

#[test]
fn halts_and_forks(rt: HostRuntime) -> Result<(), Fail> {
    let level = sample(rt.alloc())?;
    expect_halts(&rt, rt.alloc(), &level)
}

/// Where both things of a world lie, 40 units east of the middle and 3 south.
const X: i32 = 2_621_440;

const Y: i32 = -196_608;

fn key() -> Thing {
    Thing {
        kind: 5,
        x: X,
        y: Y,
        z: 65536,
        floorz: 2,
        ceilingz: 3,
        angle: 0x4000_0000,
        present: true,
    }
}

fn sample_player(thing: u32) -> Player
    ensures { result.thing ≡ thing }
{
    Player {
        thing,
        momx: -4,
        momy: 5,
        momz: -6,
        angle: 0xC000_0000,
        keys: 3,
        held: true,
        body: Body::new(true),
    }
}

/// Two things, of which the second is the player's, linked one after the other.
fn spawn_two(level: &Level, world: &mut World, steps: &mut Steps) -> Result<(), Memory>
    requires { IsOpen level.now world.old }
    ensures { OnOk result (IsOpen level.now world.new) }
{
    world.push_thing(key(), steps)?;
    world.push_thing(key(), steps)?;
    if world.thing_count() > 1 {
        world.set_player(sample_player(1));
        world.link(level, 0, X, Y, steps)?;
        world.link(level, 1, X, Y, steps)?;
    }
    Ok(())
}

/// Puts a thing at another height, if it is there.
fn lift(
    level: &Level,
    world: &mut World,
    thing: u32,
    z: i32,
    steps: &mut Steps,
) -> Result<(), Memory>
    requires { IsOpen level.now world.old }
    ensures { OnOk result (IsOpen level.now world.new) }
{
    if thing < world.thing_count() {
        let there = world.thing(thing);
        world.set_thing(thing, Thing { z, ..there }, steps)?;
    }
    Ok(())
}

/// The height of a thing, if it is there.
fn height(level: &Level, world: &World, thing: u32) -> i64
    requires { IsOpen level.now world.now }
{
    if thing < world.thing_count() {
        i64::from(world.thing(thing).z)
    } else {
        i64::MIN
    }
}

/// Whether both things are in their block, the player's first, and the heights of both.
fn shown(alloc: Global, level: &Level, world: &World) -> Result<[i64; 3], Memory>
    requires { IsOpen level.now world.now }
{
    let mut linked = Vec::new(alloc);
    world.linked_in(level, level.column_of(X), level.row_of(Y), &mut linked)?;
    Ok([
        i64::from(linked.as_slice() == [1, 0].as_slice()),
        height(level, world, 0),
        height(level, world, 1),
    ])
}

/// Lifts both things. Gives the page steps that it took.
fn lift_both(level: &Level, world: &mut World, steps: &mut Steps) -> Result<i64, Memory>
    requires { IsOpen level.now world.old }
    ensures { OnOk result (IsOpen level.now world.new) }
{
    let before = steps.pages();
    lift(level, world, 0, 9, steps)?;
    lift(level, world, 1, 7, steps)?;
    Ok(counted(steps.pages().wrapping_sub(before)))
}

/// Gives a world pages of its own, and lifts both things. What is done to the player's thing takes no page step; the
/// other thing's page, of two things, is copied.
fn expect_lifted(
    rt: &impl Abort,
    alloc: Global,
    level: &Level,
    world: &mut World,
    steps: &mut Steps,
) -> Result<(), Fail>
    requires { IsOpen level.now world.old }
{
    world.own_pages(steps)?;
    let taken = lift_both(level, world, steps)?;
    expect(rt, "page steps", &[taken], &[3]);
    expect(rt, "the fork", &shown(alloc, level, world)?, &[1, 9, 7]);
    Ok(())
}

fn expect_lifted_fork(
    rt: &impl Abort,
    alloc: Global,
    level: &Level,
    origin: &mut World,
    steps: &mut Steps,
) -> Result<(), Fail>
    requires { IsOpen level.now origin.old }
    ensures { origin.new ≡ origin.old }
{
    let mut fork = origin.fork(steps)?;
    expect_lifted(rt, alloc, level, &mut fork, steps)
}

/// A world with pages of its own and its origin are the same until one is written, and then apart.
fn expect_apart(
    rt: &impl Abort,
    alloc: Global,
    level: &Level,
    origin: &mut World,
) -> Result<(), Fail>
    requires { IsOpen level.now origin.old }
{
    let mut steps = Steps::new();
    spawn_two(level, origin, &mut steps)?;
    expect_lifted_fork(rt, alloc, level, origin, &mut steps)?;
    expect(
        rt,
        "the origin",
        &shown(alloc, level, origin)?,
        &[1, 65536, 65536],
    );
    Ok(())
}

fn expect_pages(rt: &impl Abort, alloc: Global, level: &Level) -> Result<(), Fail> {
    let mut origin = opened(alloc, level)?;
    expect_apart(rt, alloc, level, &mut origin)
}

#[test]
fn pages_of_its_own(rt: HostRuntime) -> Result<(), Fail> {
    let level = sample(rt.alloc())?;
    expect_pages(&rt, rt.alloc(), &level)
}
