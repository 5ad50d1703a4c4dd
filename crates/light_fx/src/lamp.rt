// A light among the thinkers, taken apart, and what it writes.
ghost use Rattle.std.specs.Prelude.{◌≡◌, ◌<◌, ◌≤◌, length, OnOk, OnErr};
ghost use Rattle.cow_world.specs.Flat.{IsLive, parts};
ghost use Rattle.cow_world.specs.Fits.{FitsLevel, KeepsFit};
ghost use Rattle.light_fx.specs.Lights.{lit, with_count, with_way, IsLamp};

use cow_world::{GlowKind, Sector, Thinker, World};
use doom_edge::{Memory, Steps};
use map_geometry::Level;

/// A light: its place among the thinkers, its sector, the least and the greatest level of light, what is left of its
/// count, how long a strobe stays dark, and whether a glow gets brighter.
#[derive(Clone, Copy)]
pub struct Lamp {
    pub place: u32,
    pub sector: u32,
    pub kind: GlowKind,
    pub min: i16,
    pub max: i16,
    pub count: i32,
    pub dark: i32,
    pub up: bool,
}

/// Gives a sector another light.
pub fn set_light(
    level: &Level,
    world: &mut World,
    sector: u32,
    light: i16,
    steps: &mut Steps,
) -> Result<(), Memory>
    requires fits { FitsLevel level.now world.old }
    requires there { sector < length (parts world.old).sectors }
    ensures ok { OnOk result (world.new ≡ lit world.old sector light) }
    ensures err { OnErr result (world.new ≡ world.old) }
    ensures fits { OnOk result (KeepsFit world.old world.new) }

    ensures tics { steps.new.tics ≡ steps.old.tics }
    ensures pages { steps.old.pages ≤ steps.new.pages }
{
    // The level is there for the contract alone.
    let _level = level;
    let before = world.sector(sector);
    world.set_sector(sector, with_light(before, light), steps)?;
    Ok(())
}

// The sector with another light.
fn with_light(sector: Sector, light: i16) -> Sector
    ensures { result ≡ record sector { light = light } }
{
    Sector { light, ..sector }
}

/// Gives a lamp another count.
pub fn set_count(
    world: &mut World,
    lamp: &Lamp,
    count: i32,
    steps: &mut Steps,
) -> Result<(), Memory>
    requires live { IsLive world.old }
    requires lamp { IsLamp world.old lamp.now }
    ensures ok { OnOk result (world.new ≡ with_count world.old lamp.now count) }
    ensures err { OnErr result (world.new ≡ world.old) }
    ensures fits { OnOk result (KeepsFit world.old world.new) }

    ensures tics { steps.new.tics ≡ steps.old.tics }
    ensures pages { steps.old.pages ≤ steps.new.pages }
{
    let to = Thinker::Light {
        sector: lamp.sector,
        kind: lamp.kind,
        min: lamp.min,
        max: lamp.max,
        count,
        dark: lamp.dark,
        up: lamp.up,
    };
    world.set_thinker(lamp.place, to, steps)?;
    Ok(())
}

/// Sends a lamp up or down.
pub fn set_way(world: &mut World, lamp: &Lamp, up: bool, steps: &mut Steps) -> Result<(), Memory>
    requires live { IsLive world.old }
    requires lamp { IsLamp world.old lamp.now }
    ensures ok { OnOk result (world.new ≡ with_way world.old lamp.now up) }
    ensures err { OnErr result (world.new ≡ world.old) }
    ensures fits { OnOk result (KeepsFit world.old world.new) }

    ensures tics { steps.new.tics ≡ steps.old.tics }
    ensures pages { steps.old.pages ≤ steps.new.pages }
{
    let to = Thinker::Light {
        sector: lamp.sector,
        kind: lamp.kind,
        min: lamp.min,
        max: lamp.max,
        count: lamp.count,
        dark: lamp.dark,
        up,
    };
    world.set_thinker(lamp.place, to, steps)?;
    Ok(())
}
