//! Tries: the player comes to a place, or is refused.
ghost use Rattle.std.specs.Prelude.{◌≡◌, ◌<◌, ◌≤◌, length, All, OnOk, reverse};
ghost use Rattle.cow_world.specs.Flat.{player_thing};
ghost use Rattle.cow_world.specs.Fits.{Fits, KeepsFit};
ghost use Rattle.cow_world.specs.Outcome.{goes, Moves, Plays};
ghost use Rattle.player_move.specs.Player.{HasPlayer, player_of};
ghost use Rattle.player_move.specs.Tries.{is_refused, between, arrived, passage_to, side_before, side_after, cross_one, cross_each, gone_to, settled_of, try_of, try_by};

use crate::player::own_thing;
use clip_check::{Checked, Listed, check_position};
use cow_world::{PLAYER_SHAPE, PlayFault, Thing, World};
use doom_edge::Steps;
use fixed_angle::PlayTables;
use line_specials::{Crossed, cross_line};
use map_geometry::{Level, Line, difference, line_side, sum};
use std::alloc::Global;

/// The greatest step that a player climbs, in fixed point.
const STEP: i32 = 24 * 65536;

/// The way of a move from one place to another, in fixed point.
#[derive(Clone, Copy)]
pub struct Passage {
    x1: i32,
    y1: i32,
    x2: i32,
    y2: i32,
}

/// Whether the player, whose thing this is, may not go where this was found.
fn is_refused(player: &Thing, found: &Checked) -> bool
    ensures { result ≡ is_refused player.now.z found.now }
{
    let z = player.z;
    if !found.clear {
        return true;
    }
    if difference(found.ceiling, found.floor) < PLAYER_SHAPE.height {
        return true;
    }
    if difference(found.ceiling, z) < PLAYER_SHAPE.height {
        return true;
    }
    difference(found.floor, z) > STEP
}

fn between(thing: &Thing, found: &Checked) -> Thing
    ensures { result ≡ between thing.now found.now.floor found.now.ceiling }
{
    Thing {
        floorz: found.floor,
        ceilingz: found.ceiling,
        ..*thing
    }
}

/// Brings the player to a place, between the floor and the ceiling that were found there.
fn arrive(
    level: &Level,
    tables: &PlayTables,
    world: &mut World,
    found: &Checked,
    x: i32,
    y: i32,
    steps: &mut Steps,
) -> Result<(), PlayFault>
    requires fits { Fits level.now tables.now world.old }
    ensures ok { OnOk result (world.new ≡ arrived world.old found.now x y) }
    ensures moves { Moves result world.new (goes (arrived world.old found.now x y)) }
    ensures fits { OnOk result (Fits level.now tables.now world.new) }
    ensures tics { steps.new.tics ≡ steps.old.tics }
    ensures pages { steps.old.pages ≤ steps.new.pages }
{
    let player = world.player().thing;
    let thing = between(&world.thing(player), found);
    world.set_thing(player, thing, steps)?;
    world.link(level, player, x, y, steps)?;
    Ok(())
}

/// The way from where the player stands to a place.
fn passage_to(world: &World, x: i32, y: i32) -> Passage
    requires player { HasPlayer world.now }
    ensures { result ≡ passage_to world.now x y }
{
    let Thing { x: x1, y: y1, .. } = own_thing(world);
    Passage {
        x1,
        y1,
        x2: x,
        y2: y,
    }
}

/// The side of a line on which a way begins.
fn side_before(way: &Passage, line: &Line) -> u32
    ensures side { result ≡ side_before way.now line.now }
    ensures below { result < 2 }
{
    line_side(line, way.x1, way.y1)
}

/// The side of a line on which a way ends.
fn side_after(way: &Passage, line: &Line) -> u32
    ensures { result ≡ side_after way.now line.now }
{
    line_side(line, way.x2, way.y2)
}

/// A line is crossed, if it still has a special and the way ends on its other side.
fn cross_one(
    alloc: Global,
    level: &Level,
    tables: &PlayTables,
    world: &mut World,
    way: &Passage,
    number: u32,
    steps: &mut Steps,
) -> Result<Crossed, PlayFault>
    requires fits { Fits level.now tables.now world.old }
    requires there { number < length level.now.lines }
    ensures plays { Plays result world.new (cross_one level.now tables.now way.now world.old number) }
    ensures fits { OnOk result (Fits level.now tables.now world.new) }
    ensures tics { steps.new.tics ≡ steps.old.tics }
    ensures pages { steps.old.pages ≤ steps.new.pages }
{
    if world.line_special(number) == 0 {
        return Ok(Crossed::Stays);
    }
    let line = level.line(number as usize);
    let side = side_before(way, &line);
    if side == side_after(way, &line) {
        return Ok(Crossed::Stays);
    }
    cross_line(alloc, level, tables, world, number, side, steps)
}

/// The listed lines are crossed, from the last to the first. A teleport ends them.
fn cross_each(
    alloc: Global,
    level: &Level,
    tables: &PlayTables,
    world: &mut World,
    way: &Passage,
    listed: &Listed,
    steps: &mut Steps,
) -> Result<(), PlayFault>
    requires fits { Fits level.now tables.now world.old }
    requires there { All (λ line. line < length level.now.lines) listed.now }
    ensures moves { Moves result world.new (cross_each level.now tables.now way.now world.old (reverse listed.now)) }
    ensures fits { OnOk result (Fits level.now tables.now world.new) }
    ensures tics { steps.new.tics ≡ steps.old.tics }
    ensures pages { steps.old.pages ≤ steps.new.pages }
{
    let mut left = listed.len();
    while left > 0 {
        left -= 1;
        match cross_one(alloc, level, tables, world, way, listed.get(left), steps)? {
            Crossed::Stays => {}
            Crossed::Teleported => return Ok(()),
        }
    }
    Ok(())
}

/// The player goes to a place where this was found, and crosses the lines that were listed on the way.
fn go_to(
    alloc: Global,
    level: &Level,
    tables: &PlayTables,
    world: &mut World,
    found: &Checked,
    x: i32,
    y: i32,
    steps: &mut Steps,
) -> Result<(), PlayFault>
    requires fits { Fits level.now tables.now world.old }
    requires there { All (λ line. line < length level.now.lines) found.now.listed }
    ensures moves { Moves result world.new (gone_to level.now tables.now world.old found.now x y) }
    ensures fits { OnOk result (Fits level.now tables.now world.new) }
    ensures tics { steps.new.tics ≡ steps.old.tics }
    ensures pages { steps.old.pages ≤ steps.new.pages }
{
    let way = passage_to(world, x, y);
    arrive(level, tables, world, found, x, y, steps)?;
    cross_each(alloc, level, tables, world, &way, &found.listed, steps)
}

/// After the check of a place: whether the player went there.
fn settle(
    alloc: Global,
    level: &Level,
    tables: &PlayTables,
    world: &mut World,
    found: &Checked,
    x: i32,
    y: i32,
    steps: &mut Steps,
) -> Result<bool, PlayFault>
    requires fits { Fits level.now tables.now world.old }
    requires there { All (λ line. line < length level.now.lines) found.now.listed }
    ensures plays { Plays result world.new (settled_of level.now tables.now world.old found.now x y) }
    ensures fits { OnOk result (Fits level.now tables.now world.new) }
    ensures tics { steps.new.tics ≡ steps.old.tics }
    ensures pages { steps.old.pages ≤ steps.new.pages }
{
    if is_refused(&own_thing(world), found) {
        return Ok(false);
    }
    go_to(alloc, level, tables, world, found, x, y, steps)?;
    Ok(true)
}

/// The player tries to move to a place, in fixed point, and whether it went.
///
/// What it touches there it takes, also where it is refused: because something blocks, the ceiling is too low over the
/// floor or over the player's feet, or the floor is a step of more than 24 units. Where it goes, it stands between the
/// floor and the ceiling that were found, is linked anew, and crosses the listed lines that still have a special and on
/// whose other side it came, from the last to the first. A teleport ends them.
///
/// # Errors
///
/// A halt of the check or of a crossing. After it, and after want of memory, nothing is said of the world.
#[tactic(auto, unfolding(crate::specs::Tries::try_of))]
pub fn try_move(
    alloc: Global,
    level: &Level,
    tables: &PlayTables,
    world: &mut World,
    x: i32,
    y: i32,
    steps: &mut Steps,
) -> Result<bool, PlayFault>
    requires fits { Fits level.now tables.now world.old }
    ensures plays { Plays result world.new (try_of level.now tables.now world.old x y) }
    ensures fits { OnOk result (Fits level.now tables.now world.new) }
    ensures tics { steps.new.tics ≡ steps.old.tics }
    ensures pages { steps.old.pages ≤ steps.new.pages }
{
    let player = world.player().thing;
    let found = check_position(alloc, level, tables, world, player, x, y, steps)?;
    settle(alloc, level, tables, world, &found, x, y, steps)
}

/// The player tries to move by so much from where it stands.
#[tactic(auto, using(crate::proofs::Numbers::casts))]
pub fn try_by(
    alloc: Global,
    level: &Level,
    tables: &PlayTables,
    world: &mut World,
    dx: i32,
    dy: i32,
    steps: &mut Steps,
) -> Result<bool, PlayFault>
    requires fits { Fits level.now tables.now world.old }
    ensures plays { Plays result world.new (try_by level.now tables.now world.old dx dy) }
    ensures fits { OnOk result (Fits level.now tables.now world.new) }
    ensures tics { steps.new.tics ≡ steps.old.tics }
    ensures pages { steps.old.pages ≤ steps.new.pages }
{
    let Thing { x, y, .. } = own_thing(world);
    try_move(alloc, level, tables, world, sum(x, dx), sum(y, dy), steps)
}
