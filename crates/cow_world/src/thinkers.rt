//! Thinkers.
ghost use Rattle.std.specs.Prelude.{◌≡◌, ◌⊎◌, ℕ, ◌+◌, ◌*◌, ◌<◌, ◌≤◌, length, IfSome, Some, IsTrue, OnOk, OnErr};
ghost use Rattle.cow_world.specs.Thinkers.{sector_of, moved_by, is_lift, lift_count};
ghost use Rattle.cow_world.specs.Flat.{IsLive, parts, thinker_at, push_thinker, set_thinker};
ghost use Rattle.cow_world.specs.Ends.{unnamed, end_mover};
ghost use Rattle.cow_world.specs.Fits.{KeepsFit, Serves, GoesOn};

use crate::kept_thinkers::Stretch;
use crate::records::{Sector, Thinker};
use crate::world::World;
use doom_edge::{Memory, Steps};

impl World {
    /// How many thinkers there are, those that have ended included.
    pub fn thinker_count(&self) -> u32
        requires { IsLive self.now }
        ensures { result ≡ length (parts self.now).thinkers }
    {
        self.lists.thinker_count()
    }

    /// The thinker at a place. Its sector is there.
    pub fn thinker(&self, i: u32) -> Thinker
        requires live { IsLive self.now }
        requires there { i < length (parts self.now).thinkers }
        ensures entry { result ≡ thinker_at self.now i }
        ensures sector { IfSome (sector_of result) (λ sector. sector < length (parts self.now).sectors) }
    {
        self.lists.thinker(i)
    }

    /// The next places from one on whose thinkers may be live: those before them have ended. It is empty exactly where
    /// no more may be.
    pub fn stretch_from(&self, from: u32) -> Stretch
        requires live { IsLive self.now }
        requires there { from ≤ length (parts self.now).thinkers }
        ensures from { from ≤ result.start }
        ensures order { result.start ≤ result.end }
        ensures there { result.end ≤ length (parts self.now).thinkers }
        ensures some { result.start < length (parts self.now).thinkers → result.start < result.end }
        ensures ended { (i : ℕ) → from ≤ i → i < result.start → thinker_at self.now i ≡ Thinker.Ended }
    {
        self.lists.stretch_from(from)
    }

    /// Lets go of thinkers that have ended, once they are at least half of those that are kept; the world means what it
    /// meant. What ended lies among as many others at most, so that neither a tic nor a fork nor a kept world grows
    /// with all that ever ended. On `Memory` the world is as before.
    pub fn forget_ended(&mut self, steps: &mut Steps) -> Result<(), Memory>
        requires { IsLive self.old }
        ensures kept { self.new ≡ self.old }

        ensures tics { steps.new.tics ≡ steps.old.tics }
        ensures least { steps.old.pages ≤ steps.new.pages }
        ensures most { steps.new.pages ≤ steps.old.pages + 34 * length (parts self.old).thinkers }
    {
        self.lists.forget_ended(steps)
    }

    /// Adds a thinker behind the others. The sector that it moves doesn't name it yet.
    pub fn push_thinker(&mut self, thinker: Thinker, steps: &mut Steps) -> Result<(), Memory>
        requires live { IsLive self.old }
        requires sector { IfSome (sector_of thinker) (λ sector. sector < length (parts self.old).sectors) }
        ensures ok { OnOk result (self.new ≡ push_thinker self.old thinker) }
        ensures err { OnErr result (self.new ≡ self.old) }

        ensures fits { OnOk result ((IsTrue (is_lift thinker) → lift_count (parts self.old).thinkers < 30) → KeepsFit self.old self.new) }

        ensures tics { steps.new.tics ≡ steps.old.tics }
        ensures least { steps.old.pages ≤ steps.new.pages }
        ensures most { steps.new.pages ≤ steps.old.pages + 34 }
    {
        if self.lists.thinker_count() == u32::MAX {
            return Err(Memory);
        }
        self.lists.push_thinker(thinker, steps)?;
        Ok(())
    }

    pub fn set_thinker(&mut self, i: u32, to: Thinker, steps: &mut Steps) -> Result<(), Memory>
        requires live { IsLive self.old }
        requires there { i < length (parts self.old).thinkers }
        requires sector { IfSome (sector_of to) (λ sector. sector < length (parts self.old).sectors) }
        ensures ok { OnOk result (self.new ≡ set_thinker self.old i to) }
        ensures err { OnErr result (self.new ≡ self.old) }

        ensures fits { OnOk result (Serves self.old i to → KeepsFit self.old self.new) }
        ensures goes_on { OnOk result (GoesOn self.old i to → KeepsFit self.old self.new) }

        ensures tics { steps.new.tics ≡ steps.old.tics }
        ensures least { steps.old.pages ≤ steps.new.pages }
        ensures most { steps.new.pages ≤ steps.old.pages + 34 }
    {
        self.lists.set_thinker(i, to, steps)?;
        Ok(())
    }

    /// Ends the mover at a place: the sector that it moved names no mover any more, and `Ended` is left at the place.
    /// After `Memory` the world is as before, or the sector alone names no mover any more.
    pub fn end_mover(&mut self, mover: u32, sector: u32, steps: &mut Steps) -> Result<(), Memory>
        requires live { IsLive self.old }
        requires there { mover < length (parts self.old).thinkers }
        requires sector { sector < length (parts self.old).sectors }
        ensures ok { OnOk result (self.new ≡ end_mover self.old mover sector) }
        ensures err { OnErr result ((self.new ≡ self.old) ⊎ (self.new ≡ unnamed self.old sector)) }

        ensures fits { OnOk result (moved_by (thinker_at self.old mover) ≡ Some sector → KeepsFit self.old self.new) }

        ensures tics { steps.new.tics ≡ steps.old.tics }
        ensures least { steps.old.pages ≤ steps.new.pages }
        ensures most { steps.new.pages ≤ steps.old.pages + 68 }
    {
        let named = self.sector(sector);
        let at_rest = Sector {
            mover: None,
            ..named
        };
        self.set_sector(sector, at_rest, steps)?;
        self.set_thinker(mover, Thinker::Ended, steps)?;
        Ok(())
    }
}
