//! The player's move by its momentum.
ghost use Rattle.std.specs.Prelude.{◌≡◌, ◌≤◌, OnOk};
ghost use Rattle.cow_world.specs.Fits.{Fits, KeepsFit};
ghost use Rattle.cow_world.specs.Outcome.{each_from, Moves};
ghost use Rattle.player_move.specs.Player.{HasPlayer};
ghost use Rattle.player_move.specs.Moves.{limited, within_limit, is_far, first_half, other_half, part_of_move, parts_of_move, is_slow, is_idle, comes_to_rest, rubbed, slowed, moved_of, stands_still, xy_of};

use crate::player::{own_thing, set_momentum};
use crate::slides::slide;
use crate::tries::try_by;
use cow_world::{PlayFault, Player, World};
use doom_edge::Steps;
use fixed_angle::{PlayTables, fixed_mul};
use lmp_codec::Tic;
use map_geometry::Level;
use std::alloc::Global;

/// The greatest momentum along an axis, in fixed point.
const MOST: i32 = 30 * 65536;

/// A move that leads farther than this up an axis is made in two halves.
const FAR: i32 = 15 * 65536;

/// Below this momentum a player stands that holds no key.
const SLOW: i32 = 0x1000;

/// What friction leaves of a momentum in a tic.
const FRICTION: i32 = 0xE800;

/// A momentum within the limit.
fn limited(momentum: i32) -> i32
    ensures { result ≡ limited momentum }
{
    momentum.min(MOST).max(-MOST)
}

/// Puts the player's momentum within the limit.
fn limit(world: &mut World)
    requires player { HasPlayer world.old }
    ensures ok { world.new ≡ within_limit world.old }
    ensures fits { KeepsFit world.old world.new }
{
    let player = world.player();
    set_momentum(world, limited(player.momx), limited(player.momy));
}

/// Whether a momentum leads far up an axis.
fn is_far(momentum: i32) -> bool
    ensures { result ≡ is_far momentum }
{
    momentum > FAR
}

/// A half, rounded toward zero.
fn first_half(momentum: i32) -> i32
    ensures { result ≡ first_half momentum }
{
    momentum / 2
}

/// The other half, rounded down.
fn other_half(momentum: i32) -> i32
    ensures { result ≡ other_half momentum }
{
    momentum >> 1
}

/// The player tries a part of its move from where it stands, and where that is refused, it slides.
#[tactic(auto, using(crate::proofs::Numbers::casts))]
fn move_part(
    alloc: Global,
    level: &Level,
    tables: &PlayTables,
    world: &mut World,
    dx: i32,
    dy: i32,
    steps: &mut Steps,
) -> Result<(), PlayFault>
    requires fits { Fits level.now tables.now world.old }
    ensures moves { Moves result world.new (part_of_move level.now tables.now (dx, dy) world.old) }
    ensures fits { OnOk result (Fits level.now tables.now world.new) }
    ensures tics { steps.new.tics ≡ steps.old.tics }
    ensures pages { steps.old.pages ≤ steps.new.pages }
{
    if try_by(alloc, level, tables, world, dx, dy, steps)? {
        return Ok(());
    }
    slide(alloc, level, tables, world, steps)
}

/// The player makes its move, part by part.
#[tactic(auto, using(crate::proofs::Numbers::casts))]
fn move_parts(
    alloc: Global,
    level: &Level,
    tables: &PlayTables,
    world: &mut World,
    momx: i32,
    momy: i32,
    steps: &mut Steps,
) -> Result<(), PlayFault>
    requires fits { Fits level.now tables.now world.old }
    ensures moves { Moves result world.new (each_from (part_of_move level.now tables.now) world.old (parts_of_move momx momy)) }
    ensures fits { OnOk result (Fits level.now tables.now world.new) }
    ensures tics { steps.new.tics ≡ steps.old.tics }
    ensures pages { steps.old.pages ≤ steps.new.pages }
{
    if is_far(momx) || is_far(momy) {
        move_part(
            alloc,
            level,
            tables,
            world,
            first_half(momx),
            first_half(momy),
            steps,
        )?;
        move_part(
            alloc,
            level,
            tables,
            world,
            other_half(momx),
            other_half(momy),
            steps,
        )
    } else {
        move_part(alloc, level, tables, world, momx, momy, steps)
    }
}

/// Whether a momentum is slow.
fn is_slow(momentum: i32) -> bool
    ensures { result ≡ is_slow momentum }
{
    -SLOW < momentum && momentum < SLOW
}

/// Whether no key for a move ahead or aside is held.
fn is_idle(tic: &Tic) -> bool
    ensures { result ≡ is_idle tic.now }
{
    tic.forward == 0 && tic.side == 0
}

/// Whether a player stops: one that is slow both ways, and holds no key.
#[tactic(auto, using(crate::proofs::Numbers::casts))]
fn comes_to_rest(player: &Player, tic: &Tic) -> bool
    ensures { result ≡ comes_to_rest player.now tic.now }
{
    is_slow(player.momx) && is_slow(player.momy) && is_idle(tic)
}

/// Friction takes a part of the player's momentum.
#[tactic(auto, using(crate::proofs::Numbers::casts))]
fn rub(world: &mut World)
    requires player { HasPlayer world.old }
    ensures ok { world.new ≡ rubbed world.old }
    ensures fits { KeepsFit world.old world.new }
{
    let Player { momx, momy, .. } = world.player();
    set_momentum(world, fixed_mul(momx, FRICTION), fixed_mul(momy, FRICTION));
}

/// Friction, unless the player is in the air.
fn slow_down(world: &mut World, tic: &Tic)
    requires player { HasPlayer world.old }
    ensures ok { world.new ≡ slowed tic.now world.old }
    ensures fits { KeepsFit world.old world.new }
{
    let thing = own_thing(world);
    if thing.z > thing.floorz {
        return;
    }
    if comes_to_rest(&world.player(), tic) {
        set_momentum(world, 0, 0);
    } else {
        rub(world);
    }
}

/// Whether the player has no momentum along either axis.
fn stands_still(player: &Player) -> bool
    ensures { result ≡ stands_still player.now }
{
    player.momx == 0 && player.momy == 0
}

/// The player moves by its momentum, part by part, and then is slowed.
#[tactic(auto, using(crate::proofs::Numbers::casts))]
fn move_slowing(
    alloc: Global,
    level: &Level,
    tables: &PlayTables,
    world: &mut World,
    tic: &Tic,
    steps: &mut Steps,
) -> Result<(), PlayFault>
    requires fits { Fits level.now tables.now world.old }
    ensures moves { Moves result world.new (moved_of level.now tables.now tic.now world.old) }
    ensures fits { OnOk result (Fits level.now tables.now world.new) }
    ensures tics { steps.new.tics ≡ steps.old.tics }
    ensures pages { steps.old.pages ≤ steps.new.pages }
{
    let Player { momx, momy, .. } = world.player();
    move_parts(alloc, level, tables, world, momx, momy, steps)?;
    slow_down(world, tic);
    Ok(())
}

/// The player moves by its momentum, unless it stands still.
///
/// Its momentum is at most 30 units along each axis. A move that leads more than 15 units up an axis is made in two
/// halves. Where a part is refused the player slides. Parts that are left after a teleport are tried from where the
/// player then stands. Then friction slows it, but not in the air; a slow player that holds no key stands.
///
/// # Errors
///
/// A halt of a try or a slide. After it, and after want of memory, nothing is said of the world.
#[tactic(auto, unfolding(crate::specs::Moves::xy_of))]
pub fn xy_move(
    alloc: Global,
    level: &Level,
    tables: &PlayTables,
    world: &mut World,
    tic: Tic,
    steps: &mut Steps,
) -> Result<(), PlayFault>
    requires fits { Fits level.now tables.now world.old }
    ensures moves { Moves result world.new (xy_of level.now tables.now world.old tic) }
    ensures fits { OnOk result (Fits level.now tables.now world.new) }
    ensures tics { steps.new.tics ≡ steps.old.tics }
    ensures pages { steps.old.pages ≤ steps.new.pages }
{
    if stands_still(&world.player()) {
        return Ok(());
    }
    limit(world);
    move_slowing(alloc, level, tables, world, &tic, steps)
}
