//! What the player uses.
ghost use Rattle.std.specs.Prelude.{◌≡◌, ◌<◌, ◌≤◌, length, All, OnOk, IfOk, IfSome, Option};
ghost use Rattle.cow_world.specs.Fits.{Fits, FitsLevel};
ghost use Rattle.cow_world.specs.Outcome.{Outcome, goes, and_then, Moves};
ghost use Rattle.slide_geom.specs.Traced.{trace_along};
ghost use Rattle.player_move.specs.Player.{HasPlayer, Answers};
ghost use Rattle.player_move.specs.Uses.{reach_of, sight_of, ends_use, first_end, used_at, use_of};

use crate::player::{own_thing, side_of};
use cow_world::{PlayFault, Thing, World};
use doom_edge::Steps;
use fixed_angle::PlayTables;
use game_trait::Halt;
use line_specials::use_line;
use map_geometry::{DivLine, Level};
use slide_geom::{TraceFault, trace_along};
use std::alloc::Global;

/// How far the player reaches, in units.
const REACH: i32 = 64;

/// The reach by a sine or cosine.
fn reach_of(part: i32) -> i32
    ensures { result ≡ reach_of part }
{
    part.wrapping_mul(REACH)
}

/// The way on which the player looks, as far as it reaches.
#[tactic(auto, using(crate::proofs::Numbers::casts))]
fn sight_of(tables: &PlayTables, world: &World) -> DivLine
    requires player { HasPlayer world.now }
    ensures { result ≡ sight_of tables.now world.now }
{
    let Thing { x, y, .. } = own_thing(world);
    let angle = world.player().angle;
    DivLine {
        x,
        y,
        dx: reach_of(tables.cosine(angle)),
        dy: reach_of(tables.sine(angle)),
    }
}

/// Whether a line ends a use: one that has a special, or through which nothing is open.
fn ends_use(level: &Level, world: &World, line: u32) -> bool
    requires fits { FitsLevel level.now world.now }
    requires there { line < length level.now.lines }
    ensures { result ≡ ends_use level.now world.now line }
{
    if world.line_special(line) != 0 {
        return true;
    }
    world.gap(level, line).range <= 0
}

/// Of lines in the order in which they are met, the first that ends a use.
fn first_end(level: &Level, world: &World, met: &[(i32, u32)]) -> Option<(i32, u32)>
    requires fits { FitsLevel level.now world.now }
    requires there { All (λ pair. pair.1 < length level.now.lines) met.now }
    ensures first { result ≡ first_end level.now world.now met.now }
    ensures there { IfSome result (λ pair. pair.1 < length level.now.lines) }
{
    for pair in met {
        if ends_use(level, world, pair.1) {
            return Some(*pair);
        }
    }
    None
}

/// The lines on a way, in the order in which they are met.
fn look(level: &Level, way: &DivLine, met: &mut Vec<(i32, u32)>) -> Result<(), PlayFault>
    ensures lines { Moves result met.new.items (trace_along level.now way.now) }
    ensures there { OnOk result (All (λ pair. pair.1 < length level.now.lines) met.new.items) }
{
    match trace_along(level, way, met) {
        Ok(()) => Ok(()),
        Err(TraceFault::Intercepts) => Err(PlayFault::Halt(Halt::Intercepts)),
        Err(TraceFault::Memory) => Err(PlayFault::Memory),
    }
}

/// The line that ends a use on a way.
fn find_end(
    alloc: Global,
    level: &Level,
    world: &World,
    way: &DivLine,
) -> Result<Option<(i32, u32)>, PlayFault>
    requires fits { FitsLevel level.now world.now }
    ensures found { Answers result (and_then (trace_along level.now way.now) (λ met. goes (first_end level.now world.now met))) }
    ensures there { IfOk result (λ end. IfSome end (λ pair. pair.1 < length level.now.lines)) }
{
    let mut met = Vec::new(alloc);
    look(level, way, &mut met)?;
    Ok(first_end(level, world, &met))
}

/// The line that ends a use is used, from the player's side, if it has a special.
fn use_at(
    alloc: Global,
    level: &Level,
    tables: &PlayTables,
    world: &mut World,
    end: &(i32, u32),
    steps: &mut Steps,
) -> Result<(), PlayFault>
    requires fits { Fits level.now tables.now world.old }
    requires there { end.now.1 < length level.now.lines }
    ensures moves { Moves result world.new (used_at level.now tables.now world.old (Some end.now)) }
    ensures fits { OnOk result (Fits level.now tables.now world.new) }
    ensures tics { steps.new.tics ≡ steps.old.tics }
    ensures pages { steps.old.pages ≤ steps.new.pages }
{
    let number = end.1;
    if world.line_special(number) == 0 {
        return Ok(());
    }
    let side = side_of(&level.line(number as usize), &own_thing(world));
    use_line(alloc, level, tables, world, number, side, steps)
}

/// The player uses what it looks at: of the lines up to 64 units ahead the first that has a special. A line without a
/// special stops it where nothing is open through it.
///
/// # Errors
///
/// `Intercepts` where more than 128 lines are that near, and the halts of the line. After a halt, and after want of
/// memory, nothing is said of the world.
#[tactic(auto, unfolding(crate::specs::Uses::use_of))]
pub fn use_ahead(
    alloc: Global,
    level: &Level,
    tables: &PlayTables,
    world: &mut World,
    steps: &mut Steps,
) -> Result<(), PlayFault>
    requires fits { Fits level.now tables.now world.old }
    ensures moves { Moves result world.new (use_of level.now tables.now world.old) }
    ensures fits { OnOk result (Fits level.now tables.now world.new) }
    ensures tics { steps.new.tics ≡ steps.old.tics }
    ensures pages { steps.old.pages ≤ steps.new.pages }
{
    let way = sight_of(tables, world);
    match find_end(alloc, level, world, &way)? {
        None => Ok(()),
        Some(end) => use_at(alloc, level, tables, world, &end, steps),
    }
}
