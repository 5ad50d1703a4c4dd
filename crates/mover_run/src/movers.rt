//! A mover ends.
ghost use Rattle.std.specs.Prelude.{◌≡◌, ◌≤◌, pos, length, OnOk};
ghost use Rattle.std.specs.Ordering.{int_eq};
ghost use Rattle.cow_world.specs.Ends.{end_mover};
ghost use Rattle.cow_world.specs.Flat.{parts};
ghost use Rattle.cow_world.specs.Fits.{Fits};
ghost use Rattle.mover_run.specs.Movers.{IsMover};

use cow_world::World;
use doom_edge::{Memory, Steps};
use fixed_angle::PlayTables;
use map_geometry::Level;

/// A mover ends, and its sector names none from then on. After want of memory nothing is said of the world.
pub fn end_mover(
    level: &Level,
    tables: &PlayTables,
    world: &mut World,
    place: u32,
    sector: u32,
    lift: bool,
    steps: &mut Steps,
) -> Result<(), Memory>
    requires fits { Fits level.now tables.now world.old }
    requires mover { IsMover level.now world.old place sector lift }
    ensures ok { OnOk result (world.new ≡ end_mover world.old place sector) }
    ensures fits { OnOk result (Fits level.now tables.now world.new) }
    ensures many { OnOk result (length (parts world.new).thinkers ≡ length (parts world.old).thinkers) }

    ensures tics { steps.new.tics ≡ steps.old.tics }
    ensures pages { steps.old.pages ≤ steps.new.pages }
{
    // These are there for the contract alone.
    let _level = level;
    let _tables = tables;
    let _lift = lift;
    world.end_mover(place, sector, steps)
}

/// Whether a count is at its end.
pub fn is_over(count: i32) -> bool
    ensures { result ≡ int_eq count (pos 0) }
{
    count == 0
}
