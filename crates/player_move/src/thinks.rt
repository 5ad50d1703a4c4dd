//! What the player does before it moves.
ghost use Rattle.std.specs.Prelude.{◌≡◌, ◌≤◌, OnOk};
ghost use Rattle.fixed_angle.specs.Angle.{quarter};
ghost use Rattle.cow_world.specs.Fits.{Fits, KeepsFit};
ghost use Rattle.slide_geom.specs.Angles.{turned_back};
ghost use Rattle.cow_world.specs.Outcome.{Moves};
ghost use Rattle.player_move.specs.Player.{HasPlayer};
ghost use Rattle.player_move.specs.Thinks.{looking, thrust, driven, driven_both, recovering, is_recovering, is_on_floor, steered, steer_of, presses_use, press_of, aged, think_of};

use crate::floors::feel_floor;
use crate::player::{own_thing, set_body, set_held};
use crate::uses::use_ahead;
use cow_world::{PlayFault, Player, Thing, World};
use doom_edge::Steps;
use fixed_angle::{PlayTables, fixed_mul};
use health_fx::Body;
use lmp_codec::Tic;
use map_geometry::{Level, sum};
use slide_geom::{turned, turned_back};
use std::alloc::Global;

/// A quarter of a turn.
const QUARTER: u32 = 1 << 30;

/// A unit of a tic's turn, as an angle.
const TURN: u32 = 65536;

/// The button with which the player uses.
const USE: u8 = 2;

/// The momentum that a unit of a key gives.
const DRIVE: i32 = 2048;

/// The player, turned.
fn looking(turn: u16, player: &Player) -> Player
    ensures { result ≡ looking turn player.now }
{
    Player {
        angle: turned(player.angle, u32::from(turn) * TURN),
        ..*player
    }
}

/// The player with more momentum in an angle.
fn thrust(tables: &PlayTables, angle: u32, amount: i32, player: &Player) -> Player
    ensures { result ≡ thrust tables.now angle amount player.now }
{
    Player {
        momx: sum(player.momx, fixed_mul(amount, tables.cosine(angle))),
        momy: sum(player.momy, fixed_mul(amount, tables.sine(angle))),
        ..*player
    }
}

/// The player, driven by a key in an angle.
fn driven(tables: &PlayTables, angle: u32, key: i8, player: &Player) -> Player
    ensures { result ≡ driven tables.now angle key player.now }
{
    if key == 0 {
        *player
    } else {
        thrust(tables, angle, i32::from(key) * DRIVE, player)
    }
}

/// The player, driven ahead by a tic's keys.
#[tactic(auto, using(crate::proofs::Numbers::casts))]
fn driven_ahead(tables: &PlayTables, tic: &Tic, player: &Player) -> Player
    ensures { result ≡ driven tables.now player.now.angle tic.now.forward player.now }
{
    let forward = tic.forward;
    driven(tables, player.angle, forward, player)
}

/// The player, driven to the right of an angle by a tic's keys.
#[tactic(auto, using(crate::proofs::Numbers::casts))]
fn driven_aside(tables: &PlayTables, tic: &Tic, angle: u32, player: &Player) -> Player
    ensures { result ≡ driven tables.now (turned_back angle quarter) tic.now.side player.now }
{
    let side = tic.side;
    driven(tables, turned_back(angle, QUARTER), side, player)
}

/// The player, driven ahead and to the right.
#[tactic(auto, using(crate::proofs::Numbers::casts))]
fn driven_both(tables: &PlayTables, tic: &Tic, player: &Player) -> Player
    ensures { result ≡ driven_both tables.now tic.now player.now }
{
    driven_aside(
        tables,
        tic,
        player.angle,
        &driven_ahead(tables, tic, player),
    )
}

/// The player, who came out of a teleporter, one tic later.
fn recovering(player: &Player) -> Player
    ensures { result ≡ recovering player.now }
{
    let body = player.body;
    Player {
        body: Body {
            react: body.react.saturating_sub(1),
            ..body
        },
        ..*player
    }
}

/// Whether the player came out of a teleporter, and still can't move.
fn is_recovering(player: &Player) -> bool
    ensures { result ≡ is_recovering player.now }
{
    player.body.react > 0
}

/// Whether a thing stands on its floor, or below it.
fn is_on_floor(thing: &Thing) -> bool
    ensures { result ≡ is_on_floor thing.now }
{
    thing.z <= thing.floorz
}

/// The player, turned and driven by a tic's keys.
fn steered(tables: &PlayTables, tic: &Tic, thing: &Thing, player: &Player) -> Player
    ensures { result ≡ steered tables.now tic.now thing.now player.now }
{
    if is_recovering(player) {
        return recovering(player);
    }
    let player = looking(tic.turn, player);
    if is_on_floor(thing) {
        driven_both(tables, tic, &player)
    } else {
        player
    }
}

/// The player turns and is driven.
fn steer(tables: &PlayTables, world: &mut World, tic: &Tic)
    requires player { HasPlayer world.old }
    ensures ok { world.new ≡ steer_of tables.now tic.now world.old }
    ensures fits { KeepsFit world.old world.new }
{
    let thing = own_thing(world);
    let to = steered(tables, tic, &thing, &world.player());
    world.set_player(to);
}

/// Whether a tic has the use button.
fn presses_use(tic: &Tic) -> bool
    ensures { result ≡ presses_use tic.now }
{
    tic.buttons & USE != 0
}

/// The player uses where the button is pressed and was not held before.
#[tactic(auto, using(crate::proofs::Fitted::still_fits, crate::proofs::Fitted::still_fits_two))]
fn press(
    alloc: Global,
    level: &Level,
    tables: &PlayTables,
    world: &mut World,
    tic: &Tic,
    steps: &mut Steps,
) -> Result<(), PlayFault>
    requires fits { Fits level.now tables.now world.old }
    ensures moves { Moves result world.new (press_of level.now tables.now tic.now world.old) }
    ensures fits { OnOk result (Fits level.now tables.now world.new) }
    ensures tics { steps.new.tics ≡ steps.old.tics }
    ensures pages { steps.old.pages ≤ steps.new.pages }
{
    let held = world.player().held;
    let pressed = presses_use(tic);
    set_held(world, pressed);
    if pressed && !held {
        use_ahead(alloc, level, tables, world, steps)
    } else {
        Ok(())
    }
}

/// A tic passes for the player's body.
fn age(world: &mut World)
    requires player { HasPlayer world.old }
    ensures ok { world.new ≡ aged world.old }
    ensures fits { KeepsFit world.old world.new }
{
    let mut body = world.player().body;
    body.tick();
    set_body(world, &body);
}

/// What the player does in a tic before it moves: it turns and is driven by the keys, feels the floor on which it
/// stands, and uses what it looks at where the use button is pressed and was not held before. Then its suit and its
/// invulnerability wear off by a tic.
///
/// # Errors
///
/// `Died` and `Sector` by the floor, and the halts of a use. After a halt, and after want of memory, nothing is said of
/// the world.
#[tactic(auto, using(crate::proofs::Fitted::still_fits, crate::proofs::Fitted::still_fits_two), unfolding(crate::specs::Thinks::think_of))]
pub fn think(
    alloc: Global,
    level: &Level,
    tables: &PlayTables,
    world: &mut World,
    tic: Tic,
    steps: &mut Steps,
) -> Result<(), PlayFault>
    requires fits { Fits level.now tables.now world.old }
    ensures moves { Moves result world.new (think_of level.now tables.now world.old tic) }
    ensures fits { OnOk result (Fits level.now tables.now world.new) }
    ensures tics { steps.new.tics ≡ steps.old.tics }
    ensures pages { steps.old.pages ≤ steps.new.pages }
{
    steer(tables, world, &tic);
    feel_floor(level, tables, world, steps)?;
    press(alloc, level, tables, world, &tic, steps)?;
    age(world);
    Ok(())
}
