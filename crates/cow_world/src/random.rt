//! Random numbers.
ghost use Rattle.std.specs.Prelude.{◌≡◌};
ghost use Rattle.cow_world.specs.Flat.{IsLive};
ghost use Rattle.cow_world.specs.Fits.{KeepsFit};
ghost use Rattle.cow_world.specs.Random.{draw, drawn};

use crate::world::World;
use fixed_angle::PlayTables;

impl World {
    /// Draws a random number: the index is raised, and what stands at it is the answer.
    pub fn draw(&mut self, tables: &PlayTables) -> u8
        requires { IsLive self.old }
        ensures number { result ≡ drawn tables.now self.old }
        ensures ok { self.new ≡ draw self.old }
        ensures fits { KeepsFit self.old self.new }
    {
        let index = self.rng().wrapping_add(1);
        self.set_rng(index);
        tables.random(index)
    }
}
