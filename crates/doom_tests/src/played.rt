//! What is seen of a game once some tics were played from its start.
ghost use Rattle.std.specs.Prelude.{IfOk, OnOk};
ghost use Rattle.play_step.specs.Doom.{PlaysOn};

use crate::levels::{Map, game};
use cow_world::World;
use doom_edge::Steps;
use game_trait::{Game, Quantity, Shown};
use lmp_codec::Tic;
use play_step::Doom;
use std::alloc::Global;
use std::test::Fail;

/// Equal tics: forward, turn, buttons, and how many.
pub(crate) type Tics = (i8, u16, u8, u32);

/// So many tics without input.
pub(crate) const fn rest(count: u32) -> Tics {
    (0, 0, 0, count)
}

/// So many tics of a run straight ahead.
pub(crate) const fn run(count: u32) -> Tics {
    (50, 0, 0, count)
}

/// A tic of buttons alone.
pub(crate) const fn press(buttons: u8) -> Tics {
    (0, 0, buttons, 1)
}

fn play(alloc: Global, game: &Doom, world: &mut World, tics: Tics) -> Result<(), Fail>
    requires { PlaysOn game.now world.old }
    ensures { OnOk result (PlaysOn game.now world.new) }
{
    let (forward, turn, buttons, count) = tics;
    let mut steps = Steps::new();
    for _ in 0..count {
        let Some(tic) = Tic::new(forward, 0, turn, buttons) else {
            return Err(Fail::from("no tic has that forward"));
        };
        game.step(alloc, world, tic, &mut steps)?;
    }
    Ok(())
}

fn play_all(alloc: Global, game: &Doom, world: &mut World, list: &[Tics]) -> Result<(), Fail>
    requires { PlaysOn game.now world.old }
    ensures { OnOk result (PlaysOn game.now world.new) }
{
    for tics in list {
        play(alloc, game, world, *tics)?;
    }
    Ok(())
}

/// The world after these tics.
fn played(alloc: Global, game: &Doom, list: &[Tics]) -> Result<World, Fail>
    ensures { IfOk result (PlaysOn game.now) }
{
    let mut world = game.start(alloc)?;
    play_all(alloc, game, &mut world, list)?;
    Ok(world)
}

/// What a map's world shows after these tics.
pub(crate) fn shown(alloc: Global, map: Map, list: &[Tics]) -> Result<Shown, Fail> {
    let game = game(alloc, map)?;
    let world = played(alloc, &game, list)?;
    Ok(game.shown(&world))
}

fn sector_of(game: &Doom, world: &World, number: u32) -> Option<(i32, i32, i16)>
    requires { PlaysOn game.now world.now }
{
    if world.halted().is_some() || world.sector_count() <= number {
        return None;
    }
    Some(game.sector(world, number))
}

/// A sector's floor, ceiling and light after these tics.
pub(crate) fn sector(
    alloc: Global,
    map: Map,
    list: &[Tics],
    number: u32,
) -> Result<Option<(i32, i32, i16)>, Fail> {
    let game = game(alloc, map)?;
    let world = played(alloc, &game, list)?;
    Ok(sector_of(&game, &world, number))
}

/// Health, armour and its kind, and what is left of a suit, of an invulnerability and of a teleport.
pub(crate) type Vitals = (i32, i32, u8, u32, u32, u32);

fn body_of(game: &Doom, world: &World) -> Option<Vitals>
    requires { PlaysOn game.now world.now }
{
    if world.halted().is_some() {
        return None;
    }
    let body = game.body(world);
    Some((
        body.health,
        body.armour,
        body.kind,
        body.suit,
        body.guard,
        body.react,
    ))
}

/// The player's body after these tics.
pub(crate) fn vitals(alloc: Global, map: Map, list: &[Tics]) -> Result<Option<Vitals>, Fail> {
    let game = game(alloc, map)?;
    let world = played(alloc, &game, list)?;
    Ok(body_of(&game, &world))
}

/// A reading after these tics.
pub(crate) fn reading(
    alloc: Global,
    map: Map,
    list: &[Tics],
    quantity: Quantity,
) -> Result<Option<i64>, Fail> {
    let game = game(alloc, map)?;
    let world = played(alloc, &game, list)?;
    Ok(game.reading(&world, quantity))
}

/// A live world that no level was left in, whose player looks east and that drew one number.
pub(crate) fn still(tic: u64, place: [i32; 3], momentum: [i32; 3]) -> Shown {
    turned(tic, place, momentum, (0, 1, 0))
}

/// A live world with this angle, random index and exit.
pub(crate) fn turned(tic: u64, place: [i32; 3], momentum: [i32; 3], rest: (u32, u8, u8)) -> Shown {
    let [x, y, z] = place;
    let [momx, momy, momz] = momentum;
    let (angle, rng, exited) = rest;
    Shown::Live {
        tic,
        x,
        y,
        z,
        momx,
        momy,
        momz,
        angle,
        rng,
        exited,
    }
}
