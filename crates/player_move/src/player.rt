//! The player's numbers, written.
ghost use Rattle.std.specs.Prelude.{◌≡◌, ◌<◌, pos, ◌<ℤ◌};
ghost use Rattle.map_geometry.specs.Sides.{side_of_line};
ghost use Rattle.cow_world.specs.Flat.{player_thing};
ghost use Rattle.cow_world.specs.Fits.{KeepsFit};
ghost use Rattle.player_move.specs.Player.{HasPlayer, player_of, with_momentum, with_body, with_held};

use cow_world::{Player, Thing, World};
use health_fx::Body;
use map_geometry::{Line, line_side};

/// The player's thing.
pub fn own_thing(world: &World) -> Thing
    requires player { HasPlayer world.now }
    ensures { result ≡ player_thing world.now }
{
    world.thing(world.player().thing)
}

/// The side of a line on which a thing stands.
#[tactic(auto, using(crate::proofs::Numbers::casts))]
pub fn side_of(line: &Line, thing: &Thing) -> u32
    ensures side { result ≡ side_of_line line.now thing.now.x thing.now.y }
    ensures below { result < 2 }
{
    let Thing { x, y, .. } = *thing;
    line_side(line, x, y)
}

fn driven(player: &Player, momx: i32, momy: i32) -> Player
    ensures { result ≡ record player.now { momx = momx; momy = momy } }
{
    Player {
        momx,
        momy,
        ..*player
    }
}

/// This becomes the player's momentum along both axes.
pub fn set_momentum(world: &mut World, momx: i32, momy: i32)
    requires player { HasPlayer world.old }
    ensures ok { world.new ≡ with_momentum world.old momx momy }
    ensures fits { KeepsFit world.old world.new }
{
    let to = driven(&world.player(), momx, momy);
    world.set_player(to);
}

/// This becomes the player's body, which lives.
pub fn set_body(world: &mut World, body: &Body)
    requires player { HasPlayer world.old }
    requires alive { pos 0 <ℤ body.now.health }
    ensures ok { world.new ≡ with_body world.old body.now }
    ensures fits { KeepsFit world.old world.new }
{
    let player = world.player();
    world.set_player(Player {
        body: *body,
        ..player
    });
}

/// Whether the use button is held, from now on.
pub fn set_held(world: &mut World, held: bool)
    requires player { HasPlayer world.old }
    ensures ok { world.new ≡ with_held world.old held }
    ensures fits { KeepsFit world.old world.new }
{
    let player = world.player();
    world.set_player(Player { held, ..player });
}
