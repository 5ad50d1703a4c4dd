//! Slides: what a player does whose move was refused.
ghost use Rattle.std.specs.Prelude.{◌≡◌, ◌<◌, ◌≤◌, length, OnOk, IfOk, IfSome};
ghost use Rattle.cow_world.specs.Fits.{Fits};
ghost use Rattle.cow_world.specs.Outcome.{Moves, Plays};
ghost use Rattle.slide_geom.specs.Best.{best_of};
ghost use Rattle.player_move.specs.Player.{HasPlayer, Answers};
ghost use Rattle.player_move.specs.Slides.{try_y, try_x, stair_of, try_part, up_to, near_of, left_behind, share_of, bend_of, bent_of, pass_after, driven_by, on_along, pass_by, pass_of, slide_of};

use crate::player::{own_thing, set_momentum, side_of};
use crate::tries::{try_by, try_move};
use cow_world::{PlayFault, Player, Thing, World};
use doom_edge::Steps;
use fixed_angle::{PlayTables, fixed_mul};
use game_trait::Halt;
use map_geometry::{Level, Line, difference, sum};
use slide_geom::{TraceFault, best_slide, clip_along};
use std::alloc::Global;

/// A whole move, as a fraction.
const WHOLE: i32 = 65536;

/// The part of a move by which the player stays away from a line: a 32nd.
const SHY: i32 = 2048;

/// How many passes a slide has. In place of one more comes the stair step.
const PASSES: u32 = 2;

/// How a pass of a slide ended.
#[derive(Clone, Copy, Debug, PartialEq, Eq)]
pub enum Pass {
    /// The slide is over.
    Ended,
    /// Nothing stopped the player, or it was not let near: the stair step follows.
    Stuck,
    /// The way along the line was refused: the next pass follows.
    Again,
}

/// The player tries its momentum in y alone.
#[tactic(auto, using(crate::proofs::Numbers::casts))]
fn try_y(
    alloc: Global,
    level: &Level,
    tables: &PlayTables,
    world: &mut World,
    steps: &mut Steps,
) -> Result<bool, PlayFault>
    requires fits { Fits level.now tables.now world.old }
    ensures plays { Plays result world.new (try_y level.now tables.now world.old) }
    ensures fits { OnOk result (Fits level.now tables.now world.new) }
    ensures tics { steps.new.tics ≡ steps.old.tics }
    ensures pages { steps.old.pages ≤ steps.new.pages }
{
    let Thing { x, y, .. } = own_thing(world);
    let Player { momy, .. } = world.player();
    try_move(alloc, level, tables, world, x, sum(y, momy), steps)
}

/// The player tries its momentum in x alone.
#[tactic(auto, using(crate::proofs::Numbers::casts))]
fn try_x(
    alloc: Global,
    level: &Level,
    tables: &PlayTables,
    world: &mut World,
    steps: &mut Steps,
) -> Result<bool, PlayFault>
    requires fits { Fits level.now tables.now world.old }
    ensures plays { Plays result world.new (try_x level.now tables.now world.old) }
    ensures fits { OnOk result (Fits level.now tables.now world.new) }
    ensures tics { steps.new.tics ≡ steps.old.tics }
    ensures pages { steps.old.pages ≤ steps.new.pages }
{
    let Thing { x, y, .. } = own_thing(world);
    let Player { momx, .. } = world.player();
    try_move(alloc, level, tables, world, sum(x, momx), y, steps)
}

/// The player tries its momentum in y alone, and where that is refused, in x alone.
fn stair_step(
    alloc: Global,
    level: &Level,
    tables: &PlayTables,
    world: &mut World,
    steps: &mut Steps,
) -> Result<(), PlayFault>
    requires fits { Fits level.now tables.now world.old }
    ensures moves { Moves result world.new (stair_of level.now tables.now world.old) }
    ensures fits { OnOk result (Fits level.now tables.now world.new) }
    ensures tics { steps.new.tics ≡ steps.old.tics }
    ensures pages { steps.old.pages ≤ steps.new.pages }
{
    if try_y(alloc, level, tables, world, steps)? {
        return Ok(());
    }
    try_x(alloc, level, tables, world, steps)?;
    Ok(())
}

/// A part of the player's momentum.
#[tactic(auto, using(crate::proofs::Numbers::casts))]
fn share_of(player: &Player, part: i32) -> (i32, i32)
    ensures { result ≡ share_of player.now part }
{
    let Player { momx, momy, .. } = *player;
    (fixed_mul(momx, part), fixed_mul(momy, part))
}

/// The player tries a part of its momentum.
#[tactic(auto, using(crate::proofs::Numbers::casts))]
fn try_part(
    alloc: Global,
    level: &Level,
    tables: &PlayTables,
    world: &mut World,
    part: i32,
    steps: &mut Steps,
) -> Result<bool, PlayFault>
    requires fits { Fits level.now tables.now world.old }
    ensures plays { Plays result world.new (try_part level.now tables.now world.old part) }
    ensures fits { OnOk result (Fits level.now tables.now world.new) }
    ensures tics { steps.new.tics ≡ steps.old.tics }
    ensures pages { steps.old.pages ≤ steps.new.pages }
{
    let (dx, dy) = share_of(&world.player(), part);
    try_by(alloc, level, tables, world, dx, dy, steps)
}

/// The player comes near to the line that stops it, unless it is there; and whether it was let.
#[tactic(auto, using(crate::proofs::Numbers::casts))]
fn come_near(
    alloc: Global,
    level: &Level,
    tables: &PlayTables,
    world: &mut World,
    fraction: i32,
    steps: &mut Steps,
) -> Result<bool, PlayFault>
    requires fits { Fits level.now tables.now world.old }
    ensures plays { Plays result world.new (near_of level.now tables.now world.old fraction) }
    ensures fits { OnOk result (Fits level.now tables.now world.new) }
    ensures tics { steps.new.tics ≡ steps.old.tics }
    ensures pages { steps.old.pages ≤ steps.new.pages }
{
    let part = difference(fraction, SHY);
    if part <= 0 {
        return Ok(true);
    }
    try_part(alloc, level, tables, world, part, steps)
}

/// The part of the move that is left behind the line, at most all of it.
fn left_behind(fraction: i32) -> i32
    ensures { result ≡ left_behind fraction }
{
    difference(WHOLE, fraction).min(WHOLE)
}

/// A move, bent along a line from a thing's side.
#[tactic(auto, using(crate::proofs::Numbers::casts))]
fn bend(tables: &PlayTables, line: &Line, thing: &Thing, to: &(i32, i32)) -> (i32, i32)
    ensures { result ≡ bend_of tables.now line.now thing.now to.now }
{
    let (dx, dy) = *to;
    clip_along(tables, line, side_of(line, thing), dx, dy)
}

/// A part of the player's momentum, bent along a line.
fn bent(level: &Level, tables: &PlayTables, world: &World, line: u32, part: i32) -> (i32, i32)
    requires player { HasPlayer world.now }
    requires there { line < length level.now.lines }
    ensures { result ≡ bent_of level.now tables.now world.now line part }
{
    let line = level.line(line as usize);
    let to = share_of(&world.player(), part);
    bend(tables, &line, &own_thing(world), &to)
}

/// This becomes the player's momentum, and the player tries it.
#[tactic(auto, using(crate::proofs::Numbers::casts, crate::proofs::Fitted::still_fits, crate::proofs::Fitted::still_fits_two))]
fn drive_by(
    alloc: Global,
    level: &Level,
    tables: &PlayTables,
    world: &mut World,
    momx: i32,
    momy: i32,
    steps: &mut Steps,
) -> Result<Pass, PlayFault>
    requires fits { Fits level.now tables.now world.old }
    ensures plays { Plays result world.new (driven_by level.now tables.now world.old (momx, momy)) }
    ensures fits { OnOk result (Fits level.now tables.now world.new) }
    ensures tics { steps.new.tics ≡ steps.old.tics }
    ensures pages { steps.old.pages ≤ steps.new.pages }
{
    set_momentum(world, momx, momy);
    if try_by(alloc, level, tables, world, momx, momy, steps)? {
        Ok(Pass::Ended)
    } else {
        Ok(Pass::Again)
    }
}

/// What is left of the move goes on along the line.
#[tactic(auto, using(crate::proofs::Numbers::casts))]
fn go_along(
    alloc: Global,
    level: &Level,
    tables: &PlayTables,
    world: &mut World,
    stop: &(i32, u32),
    steps: &mut Steps,
) -> Result<Pass, PlayFault>
    requires fits { Fits level.now tables.now world.old }
    requires there { stop.now.1 < length level.now.lines }
    ensures plays { Plays result world.new (on_along level.now tables.now world.old stop.now) }
    ensures fits { OnOk result (Fits level.now tables.now world.new) }
    ensures tics { steps.new.tics ≡ steps.old.tics }
    ensures pages { steps.old.pages ≤ steps.new.pages }
{
    let part = left_behind(stop.0);
    if part <= 0 {
        return Ok(Pass::Ended);
    }
    let (momx, momy) = bent(level, tables, world, stop.1, part);
    drive_by(alloc, level, tables, world, momx, momy, steps)
}

/// A pass, by the line that stops the player.
#[tactic(auto, using(crate::proofs::Numbers::casts))]
fn pass_along(
    alloc: Global,
    level: &Level,
    tables: &PlayTables,
    world: &mut World,
    stop: &(i32, u32),
    steps: &mut Steps,
) -> Result<Pass, PlayFault>
    requires fits { Fits level.now tables.now world.old }
    requires there { stop.now.1 < length level.now.lines }
    ensures plays { Plays result world.new (pass_by level.now tables.now world.old (Some stop.now)) }
    ensures fits { OnOk result (Fits level.now tables.now world.new) }
    ensures tics { steps.new.tics ≡ steps.old.tics }
    ensures pages { steps.old.pages ≤ steps.new.pages }
{
    if !come_near(alloc, level, tables, world, stop.0, steps)? {
        return Ok(Pass::Stuck);
    }
    go_along(alloc, level, tables, world, stop, steps)
}

/// The nearest line that stops the player, and the fraction of the move at which it does.
fn nearest(
    alloc: Global,
    level: &Level,
    tables: &PlayTables,
    world: &World,
) -> Result<Option<(i32, u32)>, PlayFault>
    requires fits { Fits level.now tables.now world.now }
    ensures best { Answers result (best_of level.now world.now) }
    ensures there { IfOk result (λ best. IfSome best (λ pair. pair.1 < length level.now.lines)) }
{
    match best_slide(alloc, level, world) {
        Ok(best) => Ok(best),
        Err(TraceFault::Intercepts) => Err(PlayFault::Halt(Halt::Intercepts)),
        Err(TraceFault::Memory) => Err(PlayFault::Memory),
    }
}

/// A pass of a slide.
#[tactic(auto, unfolding(crate::specs::Slides::pass_of))]
fn slide_once(
    alloc: Global,
    level: &Level,
    tables: &PlayTables,
    world: &mut World,
    steps: &mut Steps,
) -> Result<Pass, PlayFault>
    requires fits { Fits level.now tables.now world.old }
    ensures plays { Plays result world.new (pass_of level.now tables.now world.old) }
    ensures fits { OnOk result (Fits level.now tables.now world.new) }
    ensures tics { steps.new.tics ≡ steps.old.tics }
    ensures pages { steps.old.pages ≤ steps.new.pages }
{
    match nearest(alloc, level, tables, world)? {
        None => Ok(Pass::Stuck),
        Some(stop) => pass_along(alloc, level, tables, world, &stop, steps),
    }
}

/// The player, whose move was refused, slides: it comes near to what stops it and goes on along that, in two passes at
/// most.
pub fn slide(
    alloc: Global,
    level: &Level,
    tables: &PlayTables,
    world: &mut World,
    steps: &mut Steps,
) -> Result<(), PlayFault>
    requires fits { Fits level.now tables.now world.old }
    ensures moves { Moves result world.new (slide_of level.now tables.now 2 world.old) }
    ensures fits { OnOk result (Fits level.now tables.now world.new) }
    ensures tics { steps.new.tics ≡ steps.old.tics }
    ensures pages { steps.old.pages ≤ steps.new.pages }
{
    for _pass in 0..PASSES {
        match slide_once(alloc, level, tables, world, steps)? {
            Pass::Ended => return Ok(()),
            Pass::Stuck => return stair_step(alloc, level, tables, world, steps),
            Pass::Again => {}
        }
    }
    stair_step(alloc, level, tables, world, steps)
}
