//! Sectors and line specials.
ghost use Rattle.std.specs.Prelude.{◌≡◌, ◌+◌, ◌<◌, ◌≤◌, length, IfSome, OnOk, OnErr};
ghost use Rattle.cow_world.specs.Flat.{IsLive, parts, sector_at, line_special_at, set_sector, set_line_special};
ghost use Rattle.cow_world.specs.Fits.{KeepsFit, NamesMover};

use crate::records::Sector;
use crate::world::World;
use doom_edge::{Memory, Steps};

impl World {
    /// How many sectors there are.
    pub fn sector_count(&self) -> u32
        requires { IsLive self.now }
        ensures { result ≡ length (parts self.now).sectors }
    {
        self.lists.sector_count() as u32
    }

    /// The sector with a number. A mover that it names is there.
    pub fn sector(&self, i: u32) -> Sector
        requires live { IsLive self.now }
        requires there { i < length (parts self.now).sectors }
        ensures entry { result ≡ sector_at self.now i }
        ensures mover { IfSome result.mover (λ mover. mover < length (parts self.now).thinkers) }
    {
        self.lists.sector(i as usize)
    }

    pub fn set_sector(&mut self, i: u32, to: Sector, steps: &mut Steps) -> Result<(), Memory>
        requires live { IsLive self.old }
        requires there { i < length (parts self.old).sectors }
        requires mover { IfSome to.mover (λ mover. mover < length (parts self.old).thinkers) }
        ensures ok { OnOk result (self.new ≡ set_sector self.old i to) }
        ensures err { OnErr result (self.new ≡ self.old) }

        ensures fits { OnOk result (NamesMover self.old i to → KeepsFit self.old self.new) }

        ensures tics { steps.new.tics ≡ steps.old.tics }
        ensures least { steps.old.pages ≤ steps.new.pages }
        ensures most { steps.new.pages ≤ steps.old.pages + 34 }
    {
        self.lists.set_sector(i as usize, to, steps)?;
        Ok(())
    }

    /// The special of a line, as it stands now.
    pub fn line_special(&self, i: u32) -> u16
        requires live { IsLive self.now }
        requires there { i < length (parts self.now).specials }
        ensures { result ≡ line_special_at self.now i }
    {
        self.lists.special(i as usize)
    }

    pub fn set_line_special(&mut self, i: u32, to: u16, steps: &mut Steps) -> Result<(), Memory>
        requires live { IsLive self.old }
        requires there { i < length (parts self.old).specials }
        ensures ok { OnOk result (self.new ≡ set_line_special self.old i to) }
        ensures err { OnErr result (self.new ≡ self.old) }

        ensures fits { OnOk result (KeepsFit self.old self.new) }

        ensures tics { steps.new.tics ≡ steps.old.tics }
        ensures least { steps.old.pages ≤ steps.new.pages }
        ensures most { steps.new.pages ≤ steps.old.pages + 34 }
    {
        self.lists.set_special(i as usize, to, steps)?;
        Ok(())
    }
}
