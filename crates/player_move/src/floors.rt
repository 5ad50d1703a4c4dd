//! What the floor does to the player who stands on it.
ghost use Rattle.std.specs.Prelude.{◌≡◌, ◌≤◌, ◌<◌, pos, ◌≤ℤ◌, length, OnOk};
ghost use Rattle.cow_world.specs.Flat.{parts, sector_at};
ghost use Rattle.cow_world.specs.Fits.{Fits, KeepsFit};
ghost use Rattle.cow_world.specs.Outcome.{goes, Moves};
ghost use Rattle.player_move.specs.Player.{HasPlayer};
ghost use Rattle.player_move.specs.Floors.{hit_by, is_on_beat, beaten_by, wears_suit, burned_by, scalded, leaves_hurt, ended_on, plain, found_in, felt_by, sector_under, is_unfelt, floor_of};

use crate::player::{own_thing, set_body};
use block_walk::sector_of_place;
use cow_world::{PlayFault, Sector, Thing, World};
use doom_edge::Steps;
use fixed_angle::PlayTables;
use game_trait::Halt;
use health_fx::Hurt;
use map_geometry::Level;

/// The points of a hit by the worst floors.
const WORST: i32 = 20;

/// A player with no more health than this leaves on the floor that ends an episode.
const LAST_HEALTH: i32 = 10;

/// A number below this lets a hit through a suit.
const LEAK: u8 = 5;

/// A hit of the player by so many points. Who lives on draws a random number.
fn hit(
    level: &Level,
    tables: &PlayTables,
    world: &mut World,
    damage: i32,
    finale: bool,
) -> Result<(), PlayFault>
    requires fits { Fits level.now tables.now world.old }
    requires some { pos 0 ≤ℤ damage }
    requires most { damage ≤ℤ pos 20 }
    ensures moves { Moves result world.new (hit_by damage finale world.old) }
    ensures fits { OnOk result (Fits level.now tables.now world.new) }
{
    let mut body = world.player().body;
    match body.hurt(damage, finale) {
        Hurt::Spared => {
            set_body(world, &body);
            Ok(())
        }
        Hurt::Lived => {
            set_body(world, &body);
            world.draw(tables);
            Ok(())
        }
        Hurt::Died => Err(PlayFault::Halt(Halt::Died)),
    }
}

/// Whether the tic is on the beat: its level time is a multiple of 32.
fn is_on_beat(world: &World) -> bool
    requires player { HasPlayer world.now }
    ensures { result ≡ is_on_beat world.now }
{
    world.time() % 32 == 0
}

/// A hit on the beat.
fn beat(
    level: &Level,
    tables: &PlayTables,
    world: &mut World,
    damage: i32,
    finale: bool,
) -> Result<(), PlayFault>
    requires fits { Fits level.now tables.now world.old }
    requires some { pos 0 ≤ℤ damage }
    requires most { damage ≤ℤ pos 20 }
    ensures moves { Moves result world.new (beaten_by damage finale world.old) }
    ensures fits { OnOk result (Fits level.now tables.now world.new) }
{
    if is_on_beat(world) {
        hit(level, tables, world, damage, finale)
    } else {
        Ok(())
    }
}

/// Whether the player wears a radiation suit.
fn wears_suit(world: &World) -> bool
    requires player { HasPlayer world.now }
    ensures { result ≡ wears_suit world.now }
{
    world.player().body.suit > 0
}

/// A hit on the beat that a suit keeps off.
fn burn(level: &Level, tables: &PlayTables, world: &mut World, damage: i32) -> Result<(), PlayFault>
    requires fits { Fits level.now tables.now world.old }
    requires some { pos 0 ≤ℤ damage }
    requires most { damage ≤ℤ pos 20 }
    ensures moves { Moves result world.new (burned_by damage world.old) }
    ensures fits { OnOk result (Fits level.now tables.now world.new) }
{
    if wears_suit(world) {
        Ok(())
    } else {
        beat(level, tables, world, damage, false)
    }
}

/// A hit on the beat that a suit mostly keeps off, by a random number.
fn scald(level: &Level, tables: &PlayTables, world: &mut World) -> Result<(), PlayFault>
    requires fits { Fits level.now tables.now world.old }
    ensures moves { Moves result world.new (scalded tables.now world.old) }
    ensures fits { OnOk result (Fits level.now tables.now world.new) }
{
    if wears_suit(world) {
        if world.draw(tables) >= LEAK {
            return Ok(());
        }
    }
    beat(level, tables, world, WORST, false)
}

/// A player with little health left leaves the level.
fn leave_hurt(world: &mut World)
    requires player { HasPlayer world.old }
    ensures ok { world.new ≡ leaves_hurt world.old }
    ensures fits { KeepsFit world.old world.new }
{
    if world.player().body.health <= LAST_HEALTH {
        world.set_exited(1);
    }
}

/// The floor that ends an episode: a hit on the beat, and then, in every tic, a player with little health leaves.
fn end_on(level: &Level, tables: &PlayTables, world: &mut World) -> Result<(), PlayFault>
    requires fits { Fits level.now tables.now world.old }
    ensures moves { Moves result world.new (ended_on world.old) }
    ensures fits { OnOk result (Fits level.now tables.now world.new) }
{
    beat(level, tables, world, WORST, true)?;
    leave_hurt(world);
    Ok(())
}

fn plain(sector: &Sector) -> Sector
    ensures { result ≡ plain sector.now }
{
    Sector {
        special: 0,
        ..*sector
    }
}

/// A secret is found once.
fn find_secret(
    level: &Level,
    tables: &PlayTables,
    world: &mut World,
    sector: u32,
    steps: &mut Steps,
) -> Result<(), PlayFault>
    requires fits { Fits level.now tables.now world.old }
    requires there { sector < length (parts world.old).sectors }
    ensures moves { Moves result world.new (goes (found_in sector world.old)) }
    ensures fits { OnOk result (Fits level.now tables.now world.new) }
    ensures tics { steps.new.tics ≡ steps.old.tics }
    ensures pages { steps.old.pages ≤ steps.new.pages }
{
    let to = plain(&world.sector(sector));
    world.set_sector(sector, to, steps)?;
    Ok(())
}

/// What the special of a sector does to the player.
fn feel_special(
    level: &Level,
    tables: &PlayTables,
    world: &mut World,
    sector: u32,
    special: u16,
    steps: &mut Steps,
) -> Result<(), PlayFault>
    requires fits { Fits level.now tables.now world.old }
    requires there { sector < length (parts world.old).sectors }
    ensures moves { Moves result world.new (felt_by tables.now sector special world.old) }
    ensures fits { OnOk result (Fits level.now tables.now world.new) }
    ensures tics { steps.new.tics ≡ steps.old.tics }
    ensures pages { steps.old.pages ≤ steps.new.pages }
{
    match special {
        5 => burn(level, tables, world, 10),
        7 => burn(level, tables, world, 5),
        4 | 16 => scald(level, tables, world),
        9 => find_secret(level, tables, world, sector, steps),
        11 => end_on(level, tables, world),
        _ => Err(PlayFault::Halt(Halt::Sector(special))),
    }
}

/// Whether the player, whose thing this is, feels nothing of a sector's floor.
fn is_unfelt(sector: &Sector, player: &Thing) -> bool
    ensures { result ≡ is_unfelt sector.now player.now.z }
{
    sector.special == 0 || sector.floor != player.z
}

/// The sector in which the player stands.
#[tactic(auto, using(crate::proofs::Numbers::casts))]
fn sector_under(level: &Level, world: &World) -> u32
    requires player { HasPlayer world.now }
    ensures sector { result ≡ sector_under level.now world.now }
    ensures there { result < length level.now.sectors }
{
    let Thing { x, y, .. } = own_thing(world);
    sector_of_place(level, x, y)
}

/// What the player feels of the floor on which it stands.
#[tactic(auto, unfolding(crate::specs::Floors::floor_of))]
pub fn feel_floor(
    level: &Level,
    tables: &PlayTables,
    world: &mut World,
    steps: &mut Steps,
) -> Result<(), PlayFault>
    requires fits { Fits level.now tables.now world.old }
    ensures moves { Moves result world.new (floor_of level.now tables.now world.old) }
    ensures fits { OnOk result (Fits level.now tables.now world.new) }
    ensures tics { steps.new.tics ≡ steps.old.tics }
    ensures pages { steps.old.pages ≤ steps.new.pages }
{
    let number = sector_under(level, world);
    let sector = world.sector(number);
    if is_unfelt(&sector, &own_thing(world)) {
        return Ok(());
    }
    feel_special(level, tables, world, number, sector.special, steps)
}
