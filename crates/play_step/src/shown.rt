//! What a world shows, and what can be read of it.
ghost use Rattle.std.specs.Prelude.{◌≡◌, ◌<◌, length};
ghost use Rattle.cow_world.specs.Flat.{IsLive, parts, player_thing};
ghost use Rattle.play_step.specs.Shown.{live_shown, quantity_of};

use cow_world::World;
use game_trait::{Quantity, Shown};

/// What a live world shows.
pub fn show_live(world: &World) -> Shown
    requires live { IsLive world.now }
    requires player { (parts world.now).player.thing < length (parts world.now).things }
    ensures { result ≡ live_shown (parts world.now) (player_thing world.now) }
{
    let player = world.player();
    let thing = world.thing(player.thing);
    Shown::Live {
        tic: world.tics(),
        x: thing.x,
        y: thing.y,
        z: thing.z,
        momx: player.momx,
        momy: player.momy,
        momz: player.momz,
        angle: player.angle,
        rng: world.rng(),
        exited: world.exited(),
    }
}

/// A quantity of a live world.
pub fn read_live(world: &World, quantity: Quantity) -> i64
    requires live { IsLive world.now }
    requires player { (parts world.now).player.thing < length (parts world.now).things }
    ensures { result ≡ quantity_of world.now quantity }
{
    let player = world.player();
    let thing = world.thing(player.thing);
    match quantity {
        Quantity::X => i64::from(thing.x),
        Quantity::Y => i64::from(thing.y),
        Quantity::Z => i64::from(thing.z),
        Quantity::MomX => i64::from(player.momx),
        Quantity::MomY => i64::from(player.momy),
        Quantity::MomZ => i64::from(player.momz),
        Quantity::Angle => i64::from(player.angle),
        Quantity::Rng => i64::from(world.rng()),
        Quantity::Keys => i64::from(player.keys),
        Quantity::Exited => i64::from(world.exited()),
        Quantity::Health => i64::from(player.body.health),
        Quantity::Armour => i64::from(player.body.armour),
    }
}
