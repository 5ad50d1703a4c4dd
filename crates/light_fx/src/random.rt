// Random numbers.
ghost use Rattle.std.specs.Prelude.{◌≡◌};
ghost use Rattle.cow_world.specs.Flat.{IsLive};
ghost use Rattle.cow_world.specs.Fits.{KeepsFit};
ghost use Rattle.cow_world.specs.Random.{draw, drawn};

use cow_world::World;
use fixed_angle::PlayTables;

/// Draws a random number, 0 to 255: the world's index is raised by one, and after 255 comes 0; then what stands at it
/// in the tables is the answer.
pub fn play_random(tables: &PlayTables, world: &mut World) -> u8
    requires { IsLive world.old }
    ensures number { result ≡ drawn tables.now world.old }
    ensures ok { world.new ≡ draw world.old }
    ensures fits { KeepsFit world.old world.new }
{
    world.draw(tables)
}
