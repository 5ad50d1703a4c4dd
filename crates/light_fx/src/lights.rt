// What lights do in a tic.
ghost use Rattle.std.specs.Prelude.{◌≡◌, ◌+◌, ◌*◌, ◌/◌, ◌%◌, ◌<◌, ◌≤◌, pos, length, OnOk};
ghost use Rattle.cow_world.specs.Flat.{parts};
ghost use Rattle.cow_world.specs.Fits.{FitsLevel, KeepsFit};
ghost use Rattle.light_fx.specs.Lights.{light_at, IsLamp, short_count, long_count, flicker_step, flash_turned, strobe_turned, flicker_light, flicker_turned, glow_light, is_glow_end, glow_moved, lamp_moved, run_light_of, run_lights_of};

use crate::lamp::{Lamp, set_count, set_light, set_way};
use crate::numbers::{brighter, darker, is_at_end};
use cow_world::{GlowKind, Thinker, World};
use doom_edge::{Memory, Steps};
use fixed_angle::PlayTables;
use map_geometry::{Level, difference};

/// How many tics a strobe stays bright.
const BRIGHT_TICS: i32 = 5;

/// How many tics a flicker stays as it is.
const FLICKER_TICS: i32 = 4;

/// By how much a glow changes in a tic.
const GLOW_STEP: i16 = 8;

/// Plays one tic of the thinker at a place, if it is a light. After want of memory nothing is said of the world but its
/// grid.
#[tactic(auto, unfolding(crate::specs::Lights::run_light_of))]
pub fn run_light(
    level: &Level,
    tables: &PlayTables,
    world: &mut World,
    i: u32,
    steps: &mut Steps,
) -> Result<(), Memory>
    requires fits { FitsLevel level.now world.old }
    requires there { i < length (parts world.old).thinkers }
    ensures ok { OnOk result (world.new ≡ run_light_of tables.now i world.old) }
    ensures fits { OnOk result (KeepsFit world.old world.new) }
    ensures grid { world.new.grid ≡ world.old.grid }

    ensures tics { steps.new.tics ≡ steps.old.tics }
    ensures pages { steps.old.pages ≤ steps.new.pages }
{
    match world.thinker(i) {
        Thinker::Light {
            sector,
            kind,
            min,
            max,
            count,
            dark,
            up,
        } => {
            let lamp = Lamp {
                place: i,
                sector,
                kind,
                min,
                max,
                count,
                dark,
                up,
            };
            run_lamp(level, tables, world, &lamp, steps)
        }
        Thinker::Door { .. } | Thinker::Lift { .. } | Thinker::Floor { .. } | Thinker::Ended => {
            Ok(())
        }
    }
}

/// Plays one tic of all lights, in the order of their making. After want of memory nothing is said of the world but its
/// grid.
#[tactic(auto, using(crate::proofs::Lamps::played_first, crate::proofs::Lamps::played_next, crate::proofs::Lamps::played_all))]
pub fn run_lights(
    level: &Level,
    tables: &PlayTables,
    world: &mut World,
    steps: &mut Steps,
) -> Result<(), Memory>
    requires fits { FitsLevel level.now world.old }
    ensures ok { OnOk result (world.new ≡ run_lights_of tables.now world.old) }
    ensures fits { OnOk result (KeepsFit world.old world.new) }
    ensures grid { world.new.grid ≡ world.old.grid }

    ensures tics { steps.new.tics ≡ steps.old.tics }
    ensures pages { steps.old.pages ≤ steps.new.pages }
{
    for i in 0..world.thinker_count() {
        run_light(level, tables, world, i, steps)?;
    }
    Ok(())
}

// Plays one tic of a lamp, by its kind.
fn run_lamp(
    level: &Level,
    tables: &PlayTables,
    world: &mut World,
    lamp: &Lamp,
    steps: &mut Steps,
) -> Result<(), Memory>
    requires fits { FitsLevel level.now world.old }
    requires lamp { IsLamp world.old lamp.now }
    ensures ok { OnOk result (world.new ≡ lamp_moved lamp.now.kind tables.now lamp.now world.old) }
    ensures fits { OnOk result (KeepsFit world.old world.new) }
    ensures grid { world.new.grid ≡ world.old.grid }

    ensures tics { steps.new.tics ≡ steps.old.tics }
    ensures pages { steps.old.pages ≤ steps.new.pages }
{
    if let GlowKind::Glow = lamp.kind {
        return run_glow(level, world, lamp, steps);
    }
    let count = difference(lamp.count, 1);
    if !is_at_end(count) {
        return set_count(world, lamp, count, steps);
    }
    match lamp.kind {
        GlowKind::Flash => turn_flash(level, tables, world, lamp, steps),
        GlowKind::Strobe => turn_strobe(level, world, lamp, steps),
        GlowKind::Flicker => turn_flicker(level, tables, world, lamp, steps),
        GlowKind::Glow => Ok(()),
    }
}

// A flash at the end of its count.
#[tactic(auto, using(cow_world::proofs::Keeps::keeps_two, cow_world::proofs::Keeps::keeps_three))]
fn turn_flash(
    level: &Level,
    tables: &PlayTables,
    world: &mut World,
    lamp: &Lamp,
    steps: &mut Steps,
) -> Result<(), Memory>
    requires fits { FitsLevel level.now world.old }
    requires lamp { IsLamp world.old lamp.now }
    ensures ok { OnOk result (world.new ≡ flash_turned tables.now lamp.now world.old) }
    ensures fits { OnOk result (KeepsFit world.old world.new) }
    ensures grid { world.new.grid ≡ world.old.grid }

    ensures tics { steps.new.tics ≡ steps.old.tics }
    ensures pages { steps.old.pages ≤ steps.new.pages }
{
    if world.sector(lamp.sector).light == lamp.max {
        set_light(level, world, lamp.sector, lamp.min, steps)?;
        let count = short_count(world.draw(tables));
        return set_count(world, lamp, count, steps);
    }
    set_light(level, world, lamp.sector, lamp.max, steps)?;
    let count = long_count(world.draw(tables));
    set_count(world, lamp, count, steps)
}

/// A count of 1 to 8 tics, by a random number.
pub fn short_count(number: u8) -> i32
    ensures { result ≡ pos (number % 8 + 1) }
{
    i32::from(number % 8) + 1
}

/// A count of 1 tic or of 65, by a random number.
pub fn long_count(number: u8) -> i32
    ensures { result ≡ pos (number / 64 % 2 * 64 + 1) }
{
    i32::from(number / 64 % 2 * 64) + 1
}

// A strobe at the end of its count.
#[tactic(auto, using(cow_world::proofs::Keeps::keeps_two, cow_world::proofs::Keeps::keeps_three))]
fn turn_strobe(
    level: &Level,
    world: &mut World,
    lamp: &Lamp,
    steps: &mut Steps,
) -> Result<(), Memory>
    requires fits { FitsLevel level.now world.old }
    requires lamp { IsLamp world.old lamp.now }
    ensures ok { OnOk result (world.new ≡ strobe_turned lamp.now world.old) }
    ensures fits { OnOk result (KeepsFit world.old world.new) }
    ensures grid { world.new.grid ≡ world.old.grid }

    ensures tics { steps.new.tics ≡ steps.old.tics }
    ensures pages { steps.old.pages ≤ steps.new.pages }
{
    if world.sector(lamp.sector).light == lamp.min {
        set_light(level, world, lamp.sector, lamp.max, steps)?;
        set_count(world, lamp, BRIGHT_TICS, steps)
    } else {
        set_light(level, world, lamp.sector, lamp.min, steps)?;
        set_count(world, lamp, lamp.dark, steps)
    }
}

// A flicker at the end of its count.
#[tactic(auto, using(cow_world::proofs::Keeps::keeps_two, cow_world::proofs::Keeps::keeps_three))]
fn turn_flicker(
    level: &Level,
    tables: &PlayTables,
    world: &mut World,
    lamp: &Lamp,
    steps: &mut Steps,
) -> Result<(), Memory>
    requires fits { FitsLevel level.now world.old }
    requires lamp { IsLamp world.old lamp.now }
    ensures ok { OnOk result (world.new ≡ flicker_turned tables.now lamp.now world.old) }
    ensures fits { OnOk result (KeepsFit world.old world.new) }
    ensures grid { world.new.grid ≡ world.old.grid }

    ensures tics { steps.new.tics ≡ steps.old.tics }
    ensures pages { steps.old.pages ≤ steps.new.pages }
{
    let before = world.sector(lamp.sector).light;
    let step = flicker_step(world.draw(tables));
    let light = flicker_light(lamp.min, lamp.max, before, step);
    set_light(level, world, lamp.sector, light, steps)?;
    set_count(world, lamp, FLICKER_TICS, steps)
}

// 0, 16, 32 or 48, by a random number.
fn flicker_step(number: u8) -> i16
    ensures step { result ≡ pos (number % 4 * 16) }
{
    i16::from(number % 4 * 16)
}

// The brightest less a step, or the darkest, where the step would take the light below that.
fn flicker_light(min: i16, max: i16, light: i16, step: i16) -> i16
    ensures { result ≡ flicker_light min max light step }
{
    if i32::from(light) - i32::from(step) < i32::from(min) {
        return min;
    }
    darker(max, step)
}

// A glow in a tic.
fn run_glow(level: &Level, world: &mut World, lamp: &Lamp, steps: &mut Steps) -> Result<(), Memory>
    requires fits { FitsLevel level.now world.old }
    requires lamp { IsLamp world.old lamp.now }
    ensures ok { OnOk result (world.new ≡ glow_moved lamp.now world.old) }
    ensures fits { OnOk result (KeepsFit world.old world.new) }
    ensures grid { world.new.grid ≡ world.old.grid }

    ensures tics { steps.new.tics ≡ steps.old.tics }
    ensures pages { steps.old.pages ≤ steps.new.pages }
{
    let light = glow_light(lamp.up, world.sector(lamp.sector).light);
    if is_glow_end(lamp, light) {
        set_way(world, lamp, !lamp.up, steps)
    } else {
        set_light(level, world, lamp.sector, light, steps)
    }
}

// The next light of a glow on its way up or down.
fn glow_light(up: bool, light: i16) -> i16
    ensures { result ≡ glow_light up light }
{
    if up {
        brighter(light, GLOW_STEP)
    } else {
        darker(light, GLOW_STEP)
    }
}

// Whether this light is at the end of the way of a glow, or past it.
fn is_glow_end(lamp: &Lamp, light: i16) -> bool
    ensures { result ≡ is_glow_end lamp.now.up lamp.now light }
{
    if lamp.up {
        light >= lamp.max
    } else {
        light <= lamp.min
    }
}
