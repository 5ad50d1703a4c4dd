//! The nearest line that stops a player who slides.
ghost use Rattle.std.specs.Prelude.{◌≡◌, ◌<◌, length, IfOk, IfSome};
ghost use Rattle.std.specs.Int.{is_positive};
ghost use Rattle.cow_world.specs.Flat.{parts};
ghost use Rattle.cow_world.specs.Fits.{FitsLevel};
ghost use Rattle.slide_geom.specs.Traced.{Finds};
ghost use Rattle.slide_geom.specs.Best.{leading, trailing, way_from, stop_on, nearer, best_for, best_of};

use crate::stops::first_stop;
use crate::traced::trace_along;
use block_walk::TraceFault;
use cow_world::{PLAYER_SHAPE, Player, Thing, World};
use map_geometry::{DivLine, Level, difference, sum};
use std::alloc::Global;

/// Whether a momentum leads up its axis.
fn is_upward(momentum: i32) -> bool
    ensures { result ≡ is_positive momentum }
{
    momentum > 0
}

/// The end of the player's box that leads the way along an axis.
fn leading(place: i32, momentum: i32) -> i32
    ensures { result ≡ leading place momentum }
{
    if is_upward(momentum) {
        sum(place, PLAYER_SHAPE.radius)
    } else {
        difference(place, PLAYER_SHAPE.radius)
    }
}

/// The other end.
fn trailing(place: i32, momentum: i32) -> i32
    ensures { result ≡ trailing place momentum }
{
    if is_upward(momentum) {
        difference(place, PLAYER_SHAPE.radius)
    } else {
        sum(place, PLAYER_SHAPE.radius)
    }
}

/// The way of the player's momentum from a place.
fn way_from(x: i32, y: i32, player: &Player) -> DivLine
    ensures { result ≡ way_from x y player.now }
{
    DivLine {
        x,
        y,
        dx: player.momx,
        dy: player.momy,
    }
}

/// The first line on a way that stops the player, by way of a list of what the way meets.
fn stop_on(
    level: &Level,
    world: &World,
    thing: &Thing,
    way: &DivLine,
    met: &mut Vec<(i32, u32)>,
) -> Result<Option<(i32, u32)>, TraceFault>
    requires fits { FitsLevel level.now world.now }
    ensures found { Finds result (stop_on level.now world.now thing.now way.now) }
    ensures there { IfOk result (λ stop. IfSome stop (λ pair. pair.1 < length level.now.lines)) }
{
    trace_along(level, way, met)?;
    Ok(first_stop(level, world, thing, met))
}

/// The stop with the lesser fraction; of two that are equal, the first.
fn nearer(first: Option<(i32, u32)>, second: Option<(i32, u32)>) -> Option<(i32, u32)>
    ensures { result ≡ nearer first second }
{
    let Some(near) = first else {
        return second;
    };
    let Some(other) = second else {
        return first;
    };
    if other.0 < near.0 { second } else { first }
}

/// The nearest stop on the ways from three corners, by way of a list of what each meets.
fn best_for(
    level: &Level,
    world: &World,
    thing: &Thing,
    player: &Player,
    met: &mut Vec<(i32, u32)>,
) -> Result<Option<(i32, u32)>, TraceFault>
    requires fits { FitsLevel level.now world.now }
    ensures best { Finds result (best_for level.now world.now thing.now player.now) }
    ensures there { IfOk result (λ best. IfSome best (λ pair. pair.1 < length level.now.lines)) }
{
    let Player { momx, momy, .. } = *player;
    let Thing { x, y, .. } = *thing;
    let lead_x = leading(x, momx);
    let lead_y = leading(y, momy);
    let first = stop_on(level, world, thing, &way_from(lead_x, lead_y, player), met)?;
    let trail_x = trailing(x, momx);
    let second = stop_on(level, world, thing, &way_from(trail_x, lead_y, player), met)?;
    let trail_y = trailing(y, momy);
    let third = stop_on(level, world, thing, &way_from(lead_x, trail_y, player), met)?;
    Ok(nearer(nearer(first, second), third))
}

/// How much of a move by its momentum the player may make before a line stops it, in fixed point, and the number of
/// that line. `None` where nothing stops it.
///
/// The player's box is traced from three of its corners: the one that leads the way, and the two beside it. A line of
/// one side stops the player from its front. A line of two sides does where the gap is too narrow for the player, or
/// begins more than 24 units above the player's feet. The nearest counts; of two that are equally near, the one that
/// the earlier trace met.
///
/// # Errors
///
/// `Intercepts` where one of the traces meets more than 128 lines.
#[tactic(auto, unfolding(crate::specs::Best::best_of))]
pub fn best_slide(
    alloc: Global,
    level: &Level,
    world: &World,
) -> Result<Option<(i32, u32)>, TraceFault>
    requires fits { FitsLevel level.now world.now }
    requires player { (parts world.now).player.thing < length (parts world.now).things }
    ensures best { Finds result (best_of level.now world.now) }
    ensures there { IfOk result (λ best. IfSome best (λ pair. pair.1 < length level.now.lines)) }
{
    let player = world.player();
    let thing = world.thing(player.thing);
    let mut met = Vec::new(alloc);
    best_for(level, world, &thing, &player, &mut met)
}
