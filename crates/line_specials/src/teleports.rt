// Teleporters.
ghost use Rattle.std.specs.Prelude.{◌≡◌, ◌<◌, ◌≤◌, ◌&&◌, pos, length, All, IfOk, IfSome, OnOk};
ghost use Rattle.std.specs.List.{list_any};
ghost use Rattle.map_geometry.specs.Sides.{plus};
ghost use Rattle.cow_world.specs.Flat.{IsLive, parts};
ghost use Rattle.cow_world.specs.Fits.{Fits, KeepsFit};
ghost use Rattle.cow_world.specs.Outcome.{Moves, Plays};
ghost use Rattle.cow_world.specs.Shapes.{is_shootable};
ghost use Rattle.line_specials.specs.Teleports.{is_near, is_in_the_way, is_taken, on_floor, stunned, put_on_floor, moved_to, arrived, sent, sent_to, teleport_of};

use crate::exits::{Exit, exit_of};
use cow_world::{PLAYER_SHAPE, PlayFault, Player, Sector, Shape, Thing, Things, World};
use doom_edge::{Memory, Steps};
use fixed_angle::PlayTables;
use game_trait::Halt;
use health_fx::Body;
use map_geometry::{Level, blocks_of, box_around, difference, sum, widened};
use std::alloc::Global;

/// How long a player who comes out of a teleporter can't move, in tics.
const STUNNED_TICS: u32 = 18;

/// Sends the player where a line's tag leads, unless the line is crossed from its back. Whether there was an exit. It
/// halts (`Stomp`) where something that can be hurt stands there. After `Memory` nothing is said of the world.
#[tactic(auto, unfolding(crate::specs::Teleports::teleport_of), using(cow_world::proofs::Keeps::keeps_same))]
pub fn teleport(
    alloc: Global,
    level: &Level,
    tables: &PlayTables,
    world: &mut World,
    line: u32,
    side: u32,
    steps: &mut Steps,
) -> Result<bool, PlayFault>
    requires fits { Fits level.now tables.now world.old }
    requires line { line < length level.now.lines }
    ensures plays { Plays result world.new (teleport_of level.now tables.now world.old line side) }
    ensures fits { OnOk result (KeepsFit world.old world.new) }

    ensures tics { steps.new.tics ≡ steps.old.tics }
    ensures pages { steps.old.pages ≤ steps.new.pages }
{
    if side != 0 {
        return Ok(false);
    }
    let exit = exit_of(level, world, level.line(line as usize).tag);
    send_to(alloc, level, tables, world, exit, steps)
}

// Sends the player to an exit, if there is one. Whether there was.
#[tactic(auto, using(cow_world::proofs::Keeps::keeps_same))]
fn send_to(
    alloc: Global,
    level: &Level,
    tables: &PlayTables,
    world: &mut World,
    exit: Option<Exit>,
    steps: &mut Steps,
) -> Result<bool, PlayFault>
    requires fits { Fits level.now tables.now world.old }
    requires sector { IfSome exit (λ exit. exit.0 < length level.now.sectors) }
    requires thing { IfSome exit (λ exit. exit.1 < length (parts world.old).things) }
    ensures plays { Plays result world.new (sent_to exit level.now tables.now world.old) }
    ensures fits { OnOk result (KeepsFit world.old world.new) }

    ensures tics { steps.new.tics ≡ steps.old.tics }
    ensures pages { steps.old.pages ≤ steps.new.pages }
{
    match exit {
        Some(exit) => {
            send(alloc, level, tables, world, exit, steps)?;
            Ok(true)
        }
        None => Ok(false),
    }
}

// Sends the player to an exit.
fn send(
    alloc: Global,
    level: &Level,
    tables: &PlayTables,
    world: &mut World,
    exit: Exit,
    steps: &mut Steps,
) -> Result<(), PlayFault>
    requires fits { Fits level.now tables.now world.old }
    requires sector { exit.0 < length level.now.sectors }
    requires thing { exit.1 < length (parts world.old).things }
    ensures moves { Moves result world.new (sent level.now tables.now world.old exit) }
    ensures fits { OnOk result (KeepsFit world.old world.new) }

    ensures tics { steps.new.tics ≡ steps.old.tics }
    ensures pages { steps.old.pages ≤ steps.new.pages }
{
    let (sector, thing) = exit;
    let spot = world.thing(thing);
    if is_taken(alloc, level, tables, world, spot.x, spot.y)? {
        return Err(PlayFault::Halt(Halt::Stomp));
    }
    arrive(level, tables, world, sector, &spot, steps)?;
    Ok(())
}

// Whether something that can be hurt stands where the player would.
#[tactic(auto, unfolding(crate::specs::Teleports::is_taken))]
fn is_taken(
    alloc: Global,
    level: &Level,
    tables: &PlayTables,
    world: &World,
    x: i32,
    y: i32,
) -> Result<bool, Memory>
    requires { Fits level.now tables.now world.now }
    ensures { IfOk result (λ taken. taken ≡ is_taken level.now tables.now world.now x y) }
{
    let mut near = Things::new(alloc);
    let area = widened(&box_around(x, y, PLAYER_SHAPE.radius));
    world.things_in(level, &blocks_of(level, &area), &mut near)?;
    Ok(is_any_in_the_way(tables, world, x, y, &near))
}

// Whether one of these things is in the way of the player.
fn is_any_in_the_way(tables: &PlayTables, world: &World, x: i32, y: i32, near: &[u32]) -> bool
    requires live { IsLive world.now }
    requires there { All (λ thing. thing < length (parts world.now).things) near.now }
    ensures { result ≡ list_any (is_in_the_way tables.now world.now x y) near.now }
{
    for thing in near {
        if is_in_the_way(tables, world, x, y, *thing) {
            return true;
        }
    }
    false
}

// Whether a thing other than the player can be hurt and is nearer to a place than it and the player reach.
fn is_in_the_way(tables: &PlayTables, world: &World, x: i32, y: i32, thing: u32) -> bool
    requires live { IsLive world.now }
    requires there { thing < length (parts world.now).things }
    ensures { result ≡ is_in_the_way tables.now world.now x y thing }
{
    if thing == world.player().thing {
        return false;
    }
    stands_in(&world.thing(thing), &world.shape(tables, thing), x, y)
}

// Whether a thing can be hurt and reaches the player at a place.
fn stands_in(thing: &Thing, shape: &Shape, x: i32, y: i32) -> bool
    ensures { result ≡ (is_shootable shape.now && (is_near thing.now.x x (plus shape.now.radius (pos 1048576)) && is_near thing.now.y y (plus shape.now.radius (pos 1048576)))) }
{
    shape.is_shootable() && reaches(thing, shape, x, y)
}

// Whether a thing and the player at a place are nearer than their radii in both directions.
fn reaches(thing: &Thing, shape: &Shape, x: i32, y: i32) -> bool
    ensures { result ≡ (is_near thing.now.x x (plus shape.now.radius (pos 1048576)) && is_near thing.now.y y (plus shape.now.radius (pos 1048576))) }
{
    let reach = sum(shape.radius, PLAYER_SHAPE.radius);
    is_near(thing.x, x, reach) && is_near(thing.y, y, reach)
}

// Whether two coordinates are less than a reach apart.
fn is_near(from: i32, to: i32, reach: i32) -> bool
    ensures { result ≡ is_near from to reach }
{
    i64::from(difference(from, to).unsigned_abs()) < i64::from(reach)
}

// The player comes out at an exit, which stands in this sector.
fn arrive(
    level: &Level,
    tables: &PlayTables,
    world: &mut World,
    sector: u32,
    exit: &Thing,
    steps: &mut Steps,
) -> Result<(), Memory>
    requires fits { Fits level.now tables.now world.old }
    requires there { sector < length level.now.sectors }
    ensures ok { OnOk result (world.new ≡ arrived world.old sector exit.now) }
    ensures fits { OnOk result (KeepsFit world.old world.new) }

    ensures tics { steps.new.tics ≡ steps.old.tics }
    ensures pages { steps.old.pages ≤ steps.new.pages }
{
    let player = stunned(exit.angle, &world.player());
    put_on_floor(level, tables, world, sector, steps)?;
    move_to(level, tables, world, exit, steps)?;
    world.set_player(player);
    Ok(())
}

// The player stands on the floor of a sector.
fn put_on_floor(
    level: &Level,
    tables: &PlayTables,
    world: &mut World,
    sector: u32,
    steps: &mut Steps,
) -> Result<(), Memory>
    requires fits { Fits level.now tables.now world.old }
    requires there { sector < length level.now.sectors }
    ensures ok { OnOk result (world.new ≡ put_on_floor world.old sector) }
    ensures fits { OnOk result (KeepsFit world.old world.new) }

    ensures tics { steps.new.tics ≡ steps.old.tics }
    ensures pages { steps.old.pages ≤ steps.new.pages }
{
    // The level and the tables are there for the contract alone.
    let _level = level;
    let _tables = tables;
    let player = world.player().thing;
    let standing = on_floor(&world.sector(sector), &world.thing(player));
    world.set_thing(player, standing, steps)
}

fn on_floor(sector: &Sector, thing: &Thing) -> Thing
    ensures { result ≡ on_floor sector.now thing.now }
{
    let Sector { floor, ceiling, .. } = *sector;
    Thing {
        z: floor,
        floorz: floor,
        ceilingz: ceiling,
        ..*thing
    }
}

// The player stands where an exit stands, and two random numbers are drawn.
fn move_to(
    level: &Level,
    tables: &PlayTables,
    world: &mut World,
    exit: &Thing,
    steps: &mut Steps,
) -> Result<(), Memory>
    requires fits { Fits level.now tables.now world.old }
    ensures ok { OnOk result (world.new ≡ moved_to world.old exit.now) }
    ensures fits { OnOk result (KeepsFit world.old world.new) }

    ensures tics { steps.new.tics ≡ steps.old.tics }
    ensures pages { steps.old.pages ≤ steps.new.pages }
{
    let Thing { x, y, .. } = *exit;
    world.link(level, world.player().thing, x, y, steps)?;
    world.draw(tables);
    world.draw(tables);
    Ok(())
}

// The player without momentum, looking this way and unable to move for a while.
fn stunned(angle: u32, player: &Player) -> Player
    ensures { result ≡ stunned angle player.now }
{
    Player {
        momx: 0,
        momy: 0,
        momz: 0,
        angle,
        body: Body {
            react: STUNNED_TICS,
            ..player.body
        },
        ..*player
    }
}
