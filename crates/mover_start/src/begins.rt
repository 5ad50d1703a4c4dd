// How a mover begins.
ghost use Rattle.std.specs.Prelude.{◌≡◌, ◌<◌, ◌≤◌, length, Some, IsTrue, OnOk};
ghost use Rattle.cow_world.specs.Flat.{IsLive, parts};
ghost use Rattle.cow_world.specs.Fits.{FitsLevel, KeepsFit};
ghost use Rattle.cow_world.specs.Thinkers.{moved_by, is_lift, lift_count};
ghost use Rattle.mover_start.specs.Begun.{begun};

use cow_world::{Sector, Thinker, World};
use doom_edge::{Memory, Steps};
use map_geometry::Level;

/// The number of a sector, as worlds count them.
pub fn number_of(world: &World, sector: usize) -> u32
    requires live { IsLive world.now }
    requires there { sector < length (parts world.now).sectors }
    ensures { result ≡ sector }
{
    let _count = world.sector_count();
    sector as u32
}

/// A mover begins: it stands behind the other thinkers, and its sector names it. After `Memory` nothing is said of the
/// world.
pub fn begin(
    level: &Level,
    world: &mut World,
    sector: u32,
    mover: Thinker,
    steps: &mut Steps,
) -> Result<(), Memory>
    requires fits { FitsLevel level.now world.old }
    requires there { sector < length level.now.sectors }
    requires moves { moved_by mover ≡ Some sector }
    requires room { IsTrue (is_lift mover) → lift_count (parts world.old).thinkers < 30 }
    ensures ok { OnOk result (world.new ≡ begun sector mover world.old) }
    ensures fits { OnOk result (KeepsFit world.old world.new) }

    ensures tics { steps.new.tics ≡ steps.old.tics }
    ensures pages { steps.old.pages ≤ steps.new.pages }
{
    // The level is there for the contract alone.
    let _level = level;
    let place = world.thinker_count();
    world.push_thinker(mover, steps)?;
    let before = world.sector(sector);
    let named = Sector {
        mover: Some(place),
        ..before
    };
    world.set_sector(sector, named, steps)?;
    Ok(())
}
