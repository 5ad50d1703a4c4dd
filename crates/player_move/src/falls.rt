//! Falls, and how the player stands between floor and ceiling.
ghost use Rattle.std.specs.Prelude.{◌≡◌, ◌≤◌, pos, OnOk, if◌then◌else◌};
ghost use Rattle.std.specs.Int.{is_negative, is_positive};
ghost use Rattle.cow_world.specs.Fits.{Fits};
ghost use Rattle.cow_world.specs.Outcome.{goes, Moves};
ghost use Rattle.player_move.specs.Falls.{pulled, over_floor, under_ceiling, lifted, flown, with_z, with_momz, with_flight, is_at_rest, z_of};

use cow_world::{PLAYER_SHAPE, PlayFault, Player, Thing, World};
use doom_edge::Steps;
use fixed_angle::PlayTables;
use map_geometry::{Level, difference, sum};

/// By how much a fall grows in a tic, in fixed point.
const GRAVITY: i32 = 65536;

/// How high the player stands, and how much higher it comes in a tic, in fixed point.
#[derive(Clone, Copy)]
pub struct Flight {
    z: i32,
    momz: i32,
}

fn flight_at(z: i32, momz: i32) -> Flight
    ensures { result ≡ record { z = z; momz = momz } }
{
    Flight { z, momz }
}

/// Gravity: from rest at once twice as much.
fn pulled(momz: i32) -> i32
    ensures { result ≡ pulled momz }
{
    if momz == 0 {
        -2 * GRAVITY
    } else {
        difference(momz, GRAVITY)
    }
}

/// A momentum that leads down ends on the floor.
fn not_down(momz: i32) -> i32
    ensures { result ≡ (if is_negative momz then pos 0 else momz) }
{
    if momz < 0 { 0 } else { momz }
}

/// A momentum that leads up ends at the ceiling.
fn not_up(momz: i32) -> i32
    ensures { result ≡ (if is_positive momz then pos 0 else momz) }
{
    if momz > 0 { 0 } else { momz }
}

/// Who would come to the floor or below it stands on it; who is above it is pulled down.
#[tactic(auto, using(crate::proofs::Numbers::casts))]
fn over_floor(thing: &Thing, way: &Flight) -> Flight
    ensures { result ≡ over_floor thing.now.floorz way.now }
{
    let Thing { floorz, .. } = *thing;
    if way.z <= floorz {
        flight_at(floorz, not_down(way.momz))
    } else {
        flight_at(way.z, pulled(way.momz))
    }
}

/// Who would stick in the ceiling stands below it, and rises no more.
#[tactic(auto, using(crate::proofs::Numbers::casts))]
fn under_ceiling(thing: &Thing, way: &Flight) -> Flight
    ensures { result ≡ under_ceiling thing.now.ceilingz way.now }
{
    let Thing { ceilingz, .. } = *thing;
    if sum(way.z, PLAYER_SHAPE.height) > ceilingz {
        flight_at(difference(ceilingz, PLAYER_SHAPE.height), not_up(way.momz))
    } else {
        flight_at(way.z, way.momz)
    }
}

/// Higher by the player's momentum.
#[tactic(auto, using(crate::proofs::Numbers::casts))]
fn lifted(thing: &Thing, player: &Player) -> Flight
    ensures { result ≡ lifted thing.now player.now.momz }
{
    let Thing { z, .. } = *thing;
    let Player { momz, .. } = *player;
    flight_at(sum(z, momz), momz)
}

/// A tic of a fall or rise between a floor and a ceiling.
fn flown(thing: &Thing, player: &Player) -> Flight
    ensures { result ≡ flown thing.now player.now.momz }
{
    let way = lifted(thing, player);
    let way = over_floor(thing, &way);
    under_ceiling(thing, &way)
}

fn with_z(thing: &Thing, z: i32) -> Thing
    ensures { result ≡ with_z thing.now z }
{
    Thing { z, ..*thing }
}

fn with_momz(player: &Player, momz: i32) -> Player
    ensures { result ≡ with_momz player.now momz }
{
    Player { momz, ..*player }
}

/// Whether the player is on the floor, and not on the way up or down.
fn is_at_rest(thing: &Thing, player: &Player) -> bool
    ensures { result ≡ is_at_rest thing.now player.now }
{
    thing.z == thing.floorz && player.momz == 0
}

/// The player comes to this height, with this momentum.
fn fly(
    level: &Level,
    tables: &PlayTables,
    world: &mut World,
    way: &Flight,
    steps: &mut Steps,
) -> Result<(), PlayFault>
    requires fits { Fits level.now tables.now world.old }
    ensures moves { Moves result world.new (goes (with_flight world.old way.now)) }
    ensures fits { OnOk result (Fits level.now tables.now world.new) }
    ensures tics { steps.new.tics ≡ steps.old.tics }
    ensures pages { steps.old.pages ≤ steps.new.pages }
{
    let Flight { z, momz } = *way;
    let player = world.player();
    let to = with_z(&world.thing(player.thing), z);
    world.set_thing(player.thing, to, steps)?;
    world.set_player(with_momz(&player, momz));
    Ok(())
}

/// The player falls or rises by a tic, unless it rests on its floor.
///
/// It comes higher by its momentum in z. On its floor or below it then stands on it, and a momentum down ends; above
/// it, it is pulled down: from rest at once by 2 units a tic, and else by one unit more. Where it would stick in the
/// ceiling it then stands below it, and a momentum up ends. After want of memory nothing is said of the world.
#[tactic(auto, unfolding(crate::specs::Falls::z_of))]
pub fn z_move(
    level: &Level,
    tables: &PlayTables,
    world: &mut World,
    steps: &mut Steps,
) -> Result<(), PlayFault>
    requires fits { Fits level.now tables.now world.old }
    ensures moves { Moves result world.new (z_of level.now tables.now world.old) }
    ensures fits { OnOk result (Fits level.now tables.now world.new) }
    ensures tics { steps.new.tics ≡ steps.old.tics }
    ensures pages { steps.old.pages ≤ steps.new.pages }
{
    let player = world.player();
    let thing = world.thing(player.thing);
    if is_at_rest(&thing, &player) {
        return Ok(());
    }
    fly(level, tables, world, &flown(&thing, &player), steps)
}
