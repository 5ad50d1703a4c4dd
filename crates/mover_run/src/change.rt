//! The change of a sector.
ghost use Rattle.std.specs.Prelude.{◌≡◌, ◌<◌, ◌≤◌, length, false, All, OnOk};
ghost use Rattle.cow_world.specs.Flat.{parts};
ghost use Rattle.cow_world.specs.Fits.{Fits};
ghost use Rattle.cow_world.specs.Outcome.{Plays, each_from};
ghost use Rattle.clip_check.specs.Aside.{TouchesOnly};
ghost use Rattle.mover_run.specs.Planes.{clipped_one, change_of};

use clip_check::height_clip;
use cow_world::{PlayFault, Things, World};
use doom_edge::Steps;
use fixed_angle::PlayTables;
use map_geometry::Level;
use std::alloc::Global;

/// Clips the height of each thing in the blocks round a sector, as they stood before: one that the player takes on the
/// way is still clipped. True exactly where something that can be hurt does not fit between its floor and its ceiling.
/// Where no more than 16 things stand there it takes no memory but what their checks take. After a halt or want of
/// memory nothing is said of the world.
#[tactic(auto, unfolding(crate::specs::Planes::change_of))]
pub fn change_sector(
    alloc: Global,
    level: &Level,
    tables: &PlayTables,
    world: &mut World,
    sector: u32,
    steps: &mut Steps,
) -> Result<bool, PlayFault>
    requires fits { Fits level.now tables.now world.old }
    requires sector { sector < length level.now.sectors }
    ensures plays { Plays result world.new (change_of level.now tables.now world.old sector) }
    ensures fits { OnOk result (Fits level.now tables.now world.new) }
    ensures aside { OnOk result (TouchesOnly world.old world.new) }
    ensures thinkers { OnOk result ((parts world.new).thinkers ≡ (parts world.old).thinkers) }

    ensures tics { steps.new.tics ≡ steps.old.tics }
    ensures pages { steps.old.pages ≤ steps.new.pages }
{
    let mut near = Things::new(alloc);
    world.things_in(level, &level.sector_blocks(sector as usize), &mut near)?;
    clip_each(alloc, level, tables, world, &near, steps)
}

// Clips these things, one after the other.
fn clip_each(
    alloc: Global,
    level: &Level,
    tables: &PlayTables,
    world: &mut World,
    near: &[u32],
    steps: &mut Steps,
) -> Result<bool, PlayFault>
    requires fits { Fits level.now tables.now world.old }
    requires there { All (λ thing. thing < length (parts world.old).things) near.now }
    ensures plays { Plays result world.new (each_from (clipped_one level.now tables.now) (world.old, false) near.now) }
    ensures fits { OnOk result (Fits level.now tables.now world.new) }
    ensures aside { OnOk result (TouchesOnly world.old world.new) }

    ensures tics { steps.new.tics ≡ steps.old.tics }
    ensures pages { steps.old.pages ≤ steps.new.pages }
{
    let mut stuck = false;
    for thing in near {
        stuck = clip_one(alloc, level, tables, world, *thing, stuck, steps)?;
    }
    Ok(stuck)
}

// Clips one more thing. Whether something is stuck now, or was before.
fn clip_one(
    alloc: Global,
    level: &Level,
    tables: &PlayTables,
    world: &mut World,
    thing: u32,
    before: bool,
    steps: &mut Steps,
) -> Result<bool, PlayFault>
    requires fits { Fits level.now tables.now world.old }
    requires there { thing < length (parts world.old).things }
    ensures plays { Plays result world.new (clipped_one level.now tables.now thing (world.old, before)) }
    ensures fits { OnOk result (Fits level.now tables.now world.new) }
    ensures aside { OnOk result (TouchesOnly world.old world.new) }

    ensures tics { steps.new.tics ≡ steps.old.tics }
    ensures pages { steps.old.pages ≤ steps.new.pages }
{
    let fits = height_clip(alloc, level, tables, world, thing, steps)?;
    Ok(before || (!fits && world.shape(tables, thing).is_shootable()))
}
