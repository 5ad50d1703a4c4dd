//! The lines that acted, the random index, the times, and how the level was left.
ghost use Rattle.std.specs.Prelude.{◌≡◌, ◌<◌, ◌≤◌, length, OnOk, OnErr};
ghost use Rattle.cow_world.specs.Flat.{IsLive, parts, has_acted, add_acted, clear_acted, set_rng, set_time, set_tics, set_exited};
ghost use Rattle.cow_world.specs.Fits.{KeepsFit};

use crate::world::World;
use doom_edge::Memory;

impl World {
    /// Whether a line acted in the last step.
    pub fn acted(&self, line: u32) -> bool
        requires { IsLive self.now }
        ensures { result ≡ has_acted self.now line }
    {
        self.acted.contains(&line)
    }

    /// Adds a line to those that acted.
    pub fn add_acted(&mut self, line: u32) -> Result<(), Memory>
        requires live { IsLive self.old }
        requires there { line < length (parts self.old).specials }
        ensures ok { OnOk result (self.new ≡ add_acted self.old line) }
        ensures err { OnErr result (self.new ≡ self.old) }
        ensures fits { OnOk result (KeepsFit self.old self.new) }
    {
        self.acted.push(line)?;
        Ok(())
    }

    /// No line has acted, as before a step.
    pub fn clear_acted(&mut self)
        requires { IsLive self.old }
        ensures ok { self.new ≡ clear_acted self.old }
        ensures fits { KeepsFit self.old self.new }
    {
        self.acted.clear();
    }

    /// The random index.
    pub fn rng(&self) -> u8
        requires { IsLive self.now }
        ensures { result ≡ (parts self.now).rng }
    {
        self.rng
    }

    pub fn set_rng(&mut self, to: u8)
        requires { IsLive self.old }
        ensures ok { self.new ≡ set_rng self.old to }
        ensures fits { KeepsFit self.old self.new }
    {
        self.rng = to;
    }

    /// The level time, in tics.
    pub fn time(&self) -> u64
        requires { IsLive self.now }
        ensures { result ≡ (parts self.now).time }
    {
        self.time
    }

    pub fn set_time(&mut self, to: u64)
        requires { IsLive self.old }
        ensures ok { self.new ≡ set_time self.old to }
        ensures fits { KeepsFit self.old self.new }
    {
        self.time = to;
    }

    /// The number of tics that were played, those after an exit included.
    pub fn tics(&self) -> u64
        requires { IsLive self.now }
        ensures { result ≡ (parts self.now).tics }
    {
        self.tics
    }

    pub fn set_tics(&mut self, to: u64)
        requires { IsLive self.old }
        ensures ok { self.new ≡ set_tics self.old to }
        ensures fits { KeepsFit self.old self.new }
    {
        self.tics = to;
    }

    /// How the level was left: 0 not yet, 1 by an exit, 2 by a secret exit.
    pub fn exited(&self) -> u8
        requires { IsLive self.now }
        ensures exited { result ≡ (parts self.now).exited }
        ensures known { result ≤ 2 }
    {
        self.exited
    }

    pub fn set_exited(&mut self, to: u8)
        requires live { IsLive self.old }
        requires known { to ≤ 2 }
        ensures ok { self.new ≡ set_exited self.old to }
        ensures fits { KeepsFit self.old self.new }
    {
        self.exited = to;
    }
}
