// What lines do with the lights of sectors.
ghost use Rattle.std.specs.Prelude.{◌≡◌, ◌<◌, ◌≤◌, pos, length, OnOk};
ghost use Rattle.cow_world.specs.Flat.{IsLive, parts};
ghost use Rattle.cow_world.specs.Fits.{FitsLevel, KeepsFit};
ghost use Rattle.map_geometry.specs.Sectors.{sectors_with_tag};
ghost use Rattle.light_fx.specs.LineLights.{greatest_so_far, lit_alike, lit_greatest, lit_least, strobed, strobed_all, line_light_of};

use crate::begins::{SLOW_DARK, begin_strobe, make_plain};
use crate::lamp::set_light;
use cow_world::{LightKind, World};
use doom_edge::{Memory, Steps};
use fixed_angle::PlayTables;
use map_geometry::Level;

/// Does to the lights of the sectors with the line's tag what the kind says, sector by sector. The greatest light
/// around a sector, once one above 0 was found, serves all sectors after it. After want of memory nothing is said of
/// the world but its grid.
#[tactic(auto, unfolding(crate::specs::LineLights::line_light_of))]
pub fn line_light(
    level: &Level,
    tables: &PlayTables,
    world: &mut World,
    line: u32,
    kind: LightKind,
    steps: &mut Steps,
) -> Result<(), Memory>
    requires fits { FitsLevel level.now world.old }
    requires there { line < length level.now.lines }
    ensures ok { OnOk result (world.new ≡ line_light_of level.now tables.now line kind world.old) }
    ensures fits { OnOk result (KeepsFit world.old world.new) }
    ensures grid { world.new.grid ≡ world.old.grid }

    ensures tics { steps.new.tics ≡ steps.old.tics }
    ensures pages { steps.old.pages ≤ steps.new.pages }
{
    let tag = level.line(line as usize).tag;
    match kind {
        LightKind::ToGreatest => light_greatest(level, world, tag, steps),
        LightKind::To255 => light_all(level, world, tag, 255, steps),
        LightKind::To35 => light_all(level, world, tag, 35, steps),
        LightKind::SlowStrobe => strobe_all(level, tables, world, tag, steps),
        LightKind::ToLeast => light_least(level, world, tag, steps),
    }
}

// Gives all sectors with a tag the same light.
#[tactic(auto, using(map_geometry::proofs::Tagged::tagged_next, map_geometry::proofs::Tagged::tagged_all, cow_world::proofs::Keeps::keeps_same, cow_world::proofs::Keeps::keeps_two))]
fn light_all(
    level: &Level,
    world: &mut World,
    tag: i16,
    light: i16,
    steps: &mut Steps,
) -> Result<(), Memory>
    requires fits { FitsLevel level.now world.old }
    ensures ok { OnOk result (world.new ≡ lit_alike light (sectors_with_tag level.now tag) world.old) }
    ensures fits { OnOk result (KeepsFit world.old world.new) }
    ensures grid { world.new.grid ≡ world.old.grid }

    ensures tics { steps.new.tics ≡ steps.old.tics }
    ensures pages { steps.old.pages ≤ steps.new.pages }
{
    let mut from = 0;
    while let Some(sector) = level.next_with_tag(from, tag) {
        let number = number_of(world, sector);
        set_light(level, world, number, light, steps)?;
        from = sector + 1;
    }
    Ok(())
}

// The number of a sector, as worlds count them.
fn number_of(world: &World, sector: usize) -> u32
    requires live { IsLive world.now }
    requires there { sector < length (parts world.now).sectors }
    ensures { result ≡ sector }
{
    let _count = world.sector_count();
    sector as u32
}

// Gives the sectors with a tag the greatest light around the first of them that has one.
#[tactic(auto, using(map_geometry::proofs::Tagged::tagged_next, map_geometry::proofs::Tagged::tagged_all, cow_world::proofs::Keeps::keeps_same, cow_world::proofs::Keeps::keeps_two))]
fn light_greatest(
    level: &Level,
    world: &mut World,
    tag: i16,
    steps: &mut Steps,
) -> Result<(), Memory>
    requires fits { FitsLevel level.now world.old }
    ensures ok { OnOk result (world.new ≡ (lit_greatest level.now (sectors_with_tag level.now tag) (world.old, pos 0)).0) }
    ensures fits { OnOk result (KeepsFit world.old world.new) }
    ensures grid { world.new.grid ≡ world.old.grid }

    ensures tics { steps.new.tics ≡ steps.old.tics }
    ensures pages { steps.old.pages ≤ steps.new.pages }
{
    let mut greatest = 0;
    let mut from = 0;
    while let Some(sector) = level.next_with_tag(from, tag) {
        let number = number_of(world, sector);
        greatest = greatest_so_far(level, world, greatest, number);
        set_light(level, world, number, greatest, steps)?;
        from = sector + 1;
    }
    Ok(())
}

// The greatest light so far; around this sector, where none above 0 was found yet.
fn greatest_so_far(level: &Level, world: &World, greatest: i16, sector: u32) -> i16
    requires fits { FitsLevel level.now world.now }
    requires there { sector < length level.now.sectors }
    ensures { result ≡ greatest_so_far level.now world.now greatest sector }
{
    if greatest == 0 {
        return world.greatest_light_around(level, sector);
    }
    greatest
}

// Gives each of the sectors with a tag the least light of it and its neighbours.
#[tactic(auto, using(map_geometry::proofs::Tagged::tagged_next, map_geometry::proofs::Tagged::tagged_all, cow_world::proofs::Keeps::keeps_same, cow_world::proofs::Keeps::keeps_two))]
fn light_least(level: &Level, world: &mut World, tag: i16, steps: &mut Steps) -> Result<(), Memory>
    requires fits { FitsLevel level.now world.old }
    ensures ok { OnOk result (world.new ≡ lit_least level.now (sectors_with_tag level.now tag) world.old) }
    ensures fits { OnOk result (KeepsFit world.old world.new) }
    ensures grid { world.new.grid ≡ world.old.grid }

    ensures tics { steps.new.tics ≡ steps.old.tics }
    ensures pages { steps.old.pages ≤ steps.new.pages }
{
    let mut from = 0;
    while let Some(sector) = level.next_with_tag(from, tag) {
        let number = number_of(world, sector);
        let light = world.least_light_around(level, number);
        set_light(level, world, number, light, steps)?;
        from = sector + 1;
    }
    Ok(())
}

// Begins a slow strobe in each of the sectors with a tag that nothing moves.
#[tactic(auto, using(map_geometry::proofs::Tagged::tagged_next, map_geometry::proofs::Tagged::tagged_all, cow_world::proofs::Keeps::keeps_same, cow_world::proofs::Keeps::keeps_two))]
fn strobe_all(
    level: &Level,
    tables: &PlayTables,
    world: &mut World,
    tag: i16,
    steps: &mut Steps,
) -> Result<(), Memory>
    requires fits { FitsLevel level.now world.old }
    ensures ok { OnOk result (world.new ≡ strobed_all level.now tables.now (sectors_with_tag level.now tag) world.old) }
    ensures fits { OnOk result (KeepsFit world.old world.new) }
    ensures grid { world.new.grid ≡ world.old.grid }

    ensures tics { steps.new.tics ≡ steps.old.tics }
    ensures pages { steps.old.pages ≤ steps.new.pages }
{
    let mut from = 0;
    while let Some(sector) = level.next_with_tag(from, tag) {
        let number = number_of(world, sector);
        strobe_one(level, tables, world, number, steps)?;
        from = sector + 1;
    }
    Ok(())
}

// Begins a slow strobe in a sector that nothing moves.
#[tactic(auto, using(cow_world::proofs::Keeps::keeps_two))]
fn strobe_one(
    level: &Level,
    tables: &PlayTables,
    world: &mut World,
    sector: u32,
    steps: &mut Steps,
) -> Result<(), Memory>
    requires fits { FitsLevel level.now world.old }
    requires there { sector < length level.now.sectors }
    ensures ok { OnOk result (world.new ≡ strobed level.now tables.now world.old sector) }
    ensures fits { OnOk result (KeepsFit world.old world.new) }
    ensures grid { world.new.grid ≡ world.old.grid }

    ensures tics { steps.new.tics ≡ steps.old.tics }
    ensures pages { steps.old.pages ≤ steps.new.pages }
{
    if let Some(_) = world.sector(sector).mover {
        return Ok(());
    }
    begin_strobe(level, tables, world, SLOW_DARK, sector, steps)?;
    make_plain(level, world, sector, steps)
}
