//! Things and the player.
ghost use Rattle.std.specs.Prelude.{◌≡◌, ◌+◌, ◌<◌, ◌≤◌, pos, ◌<ℤ◌, length, OnOk, OnErr};
ghost use Rattle.fixed_angle.specs.Tables.{Tables};
ghost use Rattle.map_geometry.specs.Lists.{Lists};
ghost use Rattle.cow_world.specs.Flat.{IsLive, parts, thing_at, push_thing, set_thing, set_player};
ghost use Rattle.cow_world.specs.Fits.{Fits, FitsBut, KeepsFit, KeepsFitWith, KeepsLevel, StaysAlive};

use crate::records::{Player, Thing};
use crate::world::World;
use doom_edge::{Memory, Steps};

impl World {
    /// How many things there are, those that are gone included.
    pub fn thing_count(&self) -> u32
        requires { IsLive self.now }
        ensures { result ≡ length (parts self.now).things }
    {
        self.lists.thing_count() as u32
    }

    /// The thing at a place.
    pub fn thing(&self, i: u32) -> Thing
        requires live { IsLive self.now }
        requires there { i < length (parts self.now).things }
        ensures { result ≡ thing_at self.now i }
    {
        self.lists.thing(i as usize)
    }

    /// Adds a thing behind the others. It isn't linked yet.
    pub fn push_thing(&mut self, thing: Thing, steps: &mut Steps) -> Result<(), Memory>
        requires { IsLive self.old }
        ensures ok { OnOk result (self.new ≡ push_thing self.old thing) }
        ensures err { OnErr result (self.new ≡ self.old) }

        ensures fits { OnOk result (KeepsFitWith thing self.old self.new) }

        ensures tics { steps.new.tics ≡ steps.old.tics }
        ensures least { steps.old.pages ≤ steps.new.pages }
        ensures most { steps.new.pages ≤ steps.old.pages + 34 }
    {
        if self.lists.thing_count() >= u32::MAX as usize {
            return Err(Memory);
        }
        self.lists.push_thing(thing, steps)?;
        Ok(())
    }

    /// Changes a thing where it stands. To move it is to link it anew: see `link`.
    pub fn set_thing(&mut self, i: u32, to: Thing, steps: &mut Steps) -> Result<(), Memory>
        requires live { IsLive self.old }
        requires there { i < length (parts self.old).things }
        requires same_x { to.x ≡ (thing_at self.old i).x }
        requires same_y { to.y ≡ (thing_at self.old i).y }
        ensures ok { OnOk result (self.new ≡ set_thing self.old i to) }
        ensures err { OnErr result (self.new ≡ self.old) }

        ensures fits { OnOk result (to.kind ≡ (thing_at self.old i).kind → KeepsFit self.old self.new) }

        ensures tics { steps.new.tics ≡ steps.old.tics }
        ensures least { steps.old.pages ≤ steps.new.pages }
        ensures most { steps.new.pages ≤ steps.old.pages + 34 }
    {
        self.lists.set_thing(i as usize, to, steps)?;
        Ok(())
    }

    /// The player. Once a thing was pushed, that which the player stands for is there.
    pub fn player(&self) -> Player
        requires { IsLive self.now }
        ensures player { result ≡ (parts self.now).player }
        ensures thing { 0 < length (parts self.now).things → result.thing < length (parts self.now).things }
    {
        self.player
    }

    pub fn set_player(&mut self, to: Player)
        requires live { IsLive self.old }
        requires thing { to.thing < length (parts self.old).things }
        ensures ok { self.new ≡ set_player self.old to }
        ensures level { KeepsLevel self.old self.new }
        ensures keeps { StaysAlive self.old to → KeepsFit self.old self.new }
        ensures fits { pos 0 <ℤ to.body.health → (level : Lists) (tables : Tables) → FitsBut level tables to.thing self.old → Fits level tables self.new }
    {
        self.player = to;
    }
}
