//! Levels of sample maps, and worlds opened on them.
ghost use Rattle.std.specs.Prelude.{IfOk};
ghost use Rattle.play_tests.specs.Open.{IsOpen};

use cow_world::World;
use map_geometry::Level;
use map_load::load;
use sample_inputs::{MapPlan, two_sectors, wad};
use std::alloc::Global;
use std::test::Fail;
use wad_lumps::Wad;

/// The level of a map under the label `E1M1` or `MAP01`.
pub(crate) fn level_of(alloc: Global, plan: &MapPlan) -> Result<Level, Fail> {
    read(alloc, wad(alloc, plan)?)
}

fn read(alloc: Global, bytes: Vec<u8>) -> Result<Level, Fail> {
    let wad = Wad::read(bytes)?;
    let spans = wad.map(alloc, 1, 1)?;
    let level = load(alloc, &wad, &spans)?;
    Ok(level)
}

/// The level of two sectors that meet at x = 48.
pub(crate) fn sample(alloc: Global) -> Result<Level, Fail> {
    let plan = two_sectors(alloc, 48, (0, 128, 0), (24, 96, 0), 88, 1)?;
    level_of(alloc, &plan)
}

/// The world of a level with two sectors, before anything was spawned.
pub(crate) fn opened(alloc: Global, level: &Level) -> Result<World, Fail>
    ensures { IfOk result (IsOpen level.now) }
{
    if level.sector_count() < 2 || level.line_count() == 0 {
        return Err(Fail::from("the level has two sectors"));
    }
    let world = World::opening(alloc, level)?;
    Ok(world)
}
