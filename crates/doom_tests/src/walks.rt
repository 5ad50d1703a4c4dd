//! A long walk among walls, and its forks.
ghost use Rattle.std.specs.Prelude.{OnOk};
ghost use Rattle.play_step.specs.Doom.{PlaysOn};

use crate::levels::{Map, ROOM, game};
use crate::played::turned;
use cow_world::World;
use doom_edge::Steps;
use game_trait::{Game, Shown};
use lmp_codec::Tic;
use play_step::Doom;
use std::alloc::Global;
use std::test::Fail;

/// The tics of the walk.
const LENGTH: u32 = 300;

/// A flashing room among whose walls a teleporter stands.
const WALLED: Map = Map {
    special: 1,
    thing: Some((14, -400, 400, 90)),
    walls: true,
    ..ROOM
};

/// A number of 16 bits for each tic.
fn draw(tic: u32) -> u32 {
    let mixed = tic.wrapping_mul(1_103_515_245).wrapping_add(4711);
    (mixed ^ (mixed >> 15)).wrapping_mul(2_246_822_519) >> 16
}

fn forward(tic: u32, drawn: u32) -> i8 {
    if tic % 2 == 1 {
        return 50;
    }
    match drawn % 4 {
        1 => 25,
        3 => -40,
        _ => 50,
    }
}

fn side(drawn: u32) -> i8 {
    match drawn / 4 % 4 {
        0 => 0,
        1 => 24,
        2 => -24,
        _ => 40,
    }
}

/// The turn and the buttons of a tic.
fn turn(tic: u32, drawn: u32) -> (u16, u8) {
    let buttons = if drawn / 16 % 2 == 1 { 2 } else { 0 };
    if tic % 16 > 0 {
        return (0, buttons);
    }
    (u16::try_from(drawn - drawn % 16).unwrap_or(0), buttons)
}

fn tic_at(tic: u32) -> Option<Tic> {
    let drawn = draw(tic);
    let (turn, buttons) = turn(tic, drawn);
    Tic::new(forward(tic, drawn), side(drawn), turn, buttons)
}

/// The walk's tics from one on, up to another.
fn walk(alloc: Global, game: &Doom, world: &mut World, from: u32, to: u32) -> Result<(), Fail>
    requires { PlaysOn game.now world.old }
    ensures { OnOk result (PlaysOn game.now world.new) }
{
    let mut steps = Steps::new();
    for i in from..to {
        let Some(tic) = tic_at(i) else {
            return Err(Fail::from("no tic has that forward"));
        };
        game.step(alloc, world, tic, &mut steps)?;
    }
    Ok(())
}

/// What the walk shows that is played from its start.
fn plain(alloc: Global, game: &Doom) -> Result<Shown, Fail> {
    let mut world = game.start(alloc)?;
    walk(alloc, game, &mut world, 0, LENGTH)?;
    Ok(game.shown(&world))
}

/// What a fork shows that is made before a tic and played to the end of the walk.
fn forked(alloc: Global, game: &Doom, world: &mut World, from: u32) -> Result<Shown, Fail>
    requires { PlaysOn game.now world.old }
    ensures { OnOk result (PlaysOn game.now world.new) }
{
    let mut fork = game.fork(alloc, world, &mut Steps::new())?;
    walk(alloc, game, &mut fork, from, LENGTH)?;
    Ok(game.shown(&fork))
}

/// Before which tic a fork is made that ends otherwise. One is made before each 10th, and the world walks on.
fn ends_otherwise(
    alloc: Global,
    game: &Doom,
    world: &mut World,
    end: Shown,
) -> Result<Option<u32>, Fail>
    requires { PlaysOn game.now world.old }
    ensures { OnOk result (PlaysOn game.now world.new) }
{
    for tenth in 0..LENGTH / 10 {
        let from = tenth.wrapping_mul(10);
        if forked(alloc, game, world, from)? != end {
            return Ok(Some(from));
        }
        walk(alloc, game, world, from, from.wrapping_add(10))?;
    }
    Ok(None)
}

/// What the walk shows in a game of its own.
fn walked(alloc: Global) -> Result<Shown, Fail> {
    let game = game(alloc, WALLED)?;
    plain(alloc, &game)
}

/// Before which tic a fork ends otherwise than the plain walk, and what the walk shows that was forked.
fn forked_walk(alloc: Global, end: Shown) -> Result<(Option<u32>, Shown), Fail> {
    let game = game(alloc, WALLED)?;
    let mut world = game.start(alloc)?;
    let other = ends_otherwise(alloc, &game, &mut world, end)?;
    Ok((other, game.shown(&world)))
}

/// Slides along the walls, a teleport, flashes and a switch. The last place was worked out apart.
#[test]
fn forks(rt: HostRuntime) -> Result<(), Fail> {
    let end = turned(
        300,
        [-23_592_494, 32_474_858, 0],
        [140_910, 34_116, 0],
        (1_180_696_576, 60, 0),
    );
    assert_eq!(rt; walked(rt.alloc())?, end);
    assert_eq!(rt; forked_walk(rt.alloc(), end)?, (None, end));
    Ok(())
}
