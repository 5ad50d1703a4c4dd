//! Things as they are spawned.
ghost use Rattle.std.specs.Prelude.{◌≡◌, ◌≤◌, Bool, true, false, length, Some, IsSome, OnOk};
ghost use Rattle.fixed_angle.specs.Tables.{kind_with};
ghost use Rattle.cow_world.specs.Flat.{IsLive, parts};
ghost use Rattle.cow_world.specs.Fits.{Fits, KeepsFit};
ghost use Rattle.level_start.specs.Spawns.{start_angle, standing, hanging, thing_of, player_of, drawn_for, with_thing, with_player};
ghost use Rattle.level_start.specs.Begun.{FitsSoFar};

use block_walk::sector_of_place;
use cow_world::{HANGS, Player, Thing, World, has_bit};
use doom_edge::{Memory, Steps};
use fixed_angle::{Kind, PlayTables};
use health_fx::Body;
use map_geometry::{Level, Spot, difference};

/// Spawns a thing of a kind.
pub fn spawn_thing(
    level: &Level,
    tables: &PlayTables,
    spot: &Spot,
    kind: &Kind,
    world: &mut World,
    steps: &mut Steps,
) -> Result<(), Memory>
    requires live { IsLive world.old }
    requires kind { kind_with tables.now spot.now.number ≡ Some kind.now }
    ensures ok { OnOk result (world.new ≡ with_thing level.now spot.now kind.now world.old) }
    ensures fits { OnOk result ((stood : Bool) → FitsSoFar stood level.now tables.now world.old → FitsSoFar stood level.now tables.now world.new) }

    ensures tics { steps.new.tics ≡ steps.old.tics }
    ensures pages { steps.old.pages ≤ steps.new.pages }
{
    draw_for(tables, kind, world);
    world.push_thing(thing_of(level, spot, kind), steps)?;
    Ok(())
}

/// Spawns the player.
pub fn spawn_player(
    level: &Level,
    tables: &PlayTables,
    skill: u8,
    spot: &Spot,
    world: &mut World,
    steps: &mut Steps,
) -> Result<(), Memory>
    requires live { IsLive world.old }
    ensures ok { OnOk result (world.new ≡ with_player level.now skill spot.now world.old) }
    ensures fits { OnOk result (FitsSoFar false level.now tables.now world.old → FitsSoFar true level.now tables.now world.new) }

    ensures tics { steps.new.tics ≡ steps.old.tics }
    ensures pages { steps.old.pages ≤ steps.new.pages }
{
    let place = world.thing_count();
    world.draw(tables);
    world.push_thing(standing(level, spot), steps)?;
    world.set_player(player_of(skill, spot, place));
    Ok(())
}

// Draws a random number for a thing, and one more for a first state that ticks.
fn draw_for(tables: &PlayTables, kind: &Kind, world: &mut World)
    requires live { IsLive world.old }
    ensures ok { world.new ≡ drawn_for kind.now world.old }
    ensures fits { KeepsFit world.old world.new }
{
    world.draw(tables);
    if kind.first > 0 {
        world.draw(tables);
    }
}

// A thing on its floor, or below its ceiling where its kind hangs.
fn thing_of(level: &Level, spot: &Spot, kind: &Kind) -> Thing
    ensures { result ≡ thing_of level.now spot.now kind.now }
{
    if has_bit(kind.flags, HANGS) {
        hanging(level, spot, kind.height)
    } else {
        standing(level, spot)
    }
}

// A thing of the map on its floor.
fn standing(level: &Level, spot: &Spot) -> Thing
    ensures { result ≡ standing level.now spot.now }
{
    let ground = level.sector(sector_of_place(level, spot.x, spot.y) as usize);
    Thing {
        kind: spot.number,
        x: spot.x,
        y: spot.y,
        z: ground.floor,
        floorz: ground.floor,
        ceilingz: ground.ceiling,
        angle: start_angle(spot.angle),
        present: true,
    }
}

// A thing of the map that is so high and hangs from its ceiling.
fn hanging(level: &Level, spot: &Spot, height: i32) -> Thing
    ensures { result ≡ hanging level.now spot.now height }
{
    let below = standing(level, spot);
    let z = difference(below.ceilingz, height);
    Thing { z, ..below }
}

// The player at the start, who stands for the thing at a place. The use button counts as held.
fn player_of(skill: u8, spot: &Spot, place: u32) -> Player
    ensures { result ≡ player_of skill spot.now place }
{
    Player {
        thing: place,
        momx: 0,
        momy: 0,
        momz: 0,
        angle: start_angle(spot.angle),
        keys: 0,
        held: true,
        body: Body::new(skill == 0),
    }
}

// The angle of so many degrees, in whole eighths of a turn.
fn start_angle(degrees: i16) -> u32
    ensures { result ≡ start_angle degrees }
{
    (i32::from(degrees) / 45)
        .wrapping_mul(1 << 29)
        .cast_unsigned()
}
