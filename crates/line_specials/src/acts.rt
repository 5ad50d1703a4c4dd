// What lines do.
ghost use Rattle.std.specs.Prelude.{◌≡◌, ◌<◌, ◌≤◌, length, OnOk};
ghost use Rattle.cow_world.specs.Flat.{line_special_at};
ghost use Rattle.cow_world.specs.Fits.{Fits, FitsLevel, KeepsFit};
ghost use Rattle.cow_world.specs.Outcome.{Plays};
ghost use Rattle.mover_start.specs.Manual.{IsManual};
ghost use Rattle.line_specials.specs.Acts.{locked_door_of, done_of, acted_on};

use crate::table::{Action, Key};
use crate::teleports::teleport;
use cow_world::{DoorKind, PlayFault, World, has_bit};
use doom_edge::{Memory, Steps};
use fixed_angle::PlayTables;
use light_fx::line_light;
use map_geometry::Level;
use mover_start::{do_door, do_floor, do_plat, manual_door, stop_plat};
use std::alloc::Global;

/// An exit, and a secret one, as worlds keep them.
const EXIT: u8 = 1;

const SECRET_EXIT: u8 = 2;

/// Does what a line does. Whether something started: lights and exits always do, a teleport where it has an exit. After
/// `Memory` nothing is said of the world.
pub fn perform(
    alloc: Global,
    level: &Level,
    tables: &PlayTables,
    world: &mut World,
    line: u32,
    side: u32,
    action: Action,
    steps: &mut Steps,
) -> Result<bool, PlayFault>
    requires fits { Fits level.now tables.now world.old }
    requires line { line < length level.now.lines }
    requires by_hand { action ≡ Action.ByHand → IsManual (line_special_at world.old line) }
    ensures plays { Plays result world.new (done_of action level.now tables.now world.old line side) }
    ensures fits { OnOk result (KeepsFit world.old world.new) }

    ensures tics { steps.new.tics ≡ steps.old.tics }
    ensures pages { steps.old.pages ≤ steps.new.pages }
{
    match action {
        Action::Door(kind) => do_door(level, world, line, kind, steps),
        Action::LockedDoor(key) => open_locked(level, world, line, key, steps),
        Action::Floor(kind) => do_floor(level, world, line, kind, steps),
        Action::Lift(kind) => do_plat(level, tables, world, line, kind, steps),
        Action::StopLift => stop_plat(level, world, line, steps),
        Action::Light(kind) => {
            line_light(level, tables, world, line, kind, steps)?;
            Ok(true)
        }
        Action::Exit => {
            world.set_exited(EXIT);
            Ok(true)
        }
        Action::SecretExit => {
            world.set_exited(SECRET_EXIT);
            Ok(true)
        }
        Action::Teleport => teleport(alloc, level, tables, world, line, side, steps),
        Action::ByHand => manual_door(level, world, line, steps),
    }
}

// Opens doors for those who have the key.
#[tactic(auto, using(cow_world::proofs::Keeps::keeps_same))]
fn open_locked(
    level: &Level,
    world: &mut World,
    line: u32,
    key: Key,
    steps: &mut Steps,
) -> Result<bool, PlayFault>
    requires fits { FitsLevel level.now world.old }
    requires line { line < length level.now.lines }
    ensures plays { Plays result world.new (locked_door_of level.now world.old line key) }
    ensures fits { OnOk result (KeepsFit world.old world.new) }

    ensures tics { steps.new.tics ≡ steps.old.tics }
    ensures pages { steps.old.pages ≤ steps.new.pages }
{
    if !has_bit(u16::from(world.player().keys), key.bit()) {
        return Ok(false);
    }
    do_door(level, world, line, DoorKind::BlazeOpen, steps)
}

/// A line has acted, and loses its number unless it keeps it.
pub fn finish(
    level: &Level,
    world: &mut World,
    line: u32,
    keeps: bool,
    steps: &mut Steps,
) -> Result<(), Memory>
    requires fits { FitsLevel level.now world.old }
    requires line { line < length level.now.lines }
    ensures ok { OnOk result (world.new ≡ acted_on keeps line world.old) }
    ensures fits { OnOk result (KeepsFit world.old world.new) }

    ensures tics { steps.new.tics ≡ steps.old.tics }
    ensures pages { steps.old.pages ≤ steps.new.pages }
{
    // The level is there for the contract alone.
    let _level = level;
    if !keeps {
        world.set_line_special(line, 0, steps)?;
    }
    world.add_acted(line)
}
