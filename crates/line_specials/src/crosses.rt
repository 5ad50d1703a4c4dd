// Lines that are crossed.
ghost use Rattle.std.specs.Prelude.{◌≡◌, ◌<◌, ◌≤◌, length, OnOk};
ghost use Rattle.cow_world.specs.Flat.{line_special_at};
ghost use Rattle.cow_world.specs.Fits.{Fits};
ghost use Rattle.cow_world.specs.Outcome.{Plays};
ghost use Rattle.line_specials.specs.Table.{walk_row};
ghost use Rattle.line_specials.specs.Acts.{crossed_by, cross_of};

use crate::acts::{finish, perform};
use crate::table::{Action, halts_crossed, walk_row};
use cow_world::{PlayFault, World};
use doom_edge::Steps;
use fixed_angle::PlayTables;
use game_trait::Halt;
use map_geometry::Level;
use std::alloc::Global;

/// What crossing a line did to the player.
#[derive(Clone, Copy, Debug, PartialEq, Eq)]
pub enum Crossed {
    Stays,
    /// The player came out of an exit.
    Teleported,
}

/// The player has crossed a line from a side. A line whose number the table has as one to be walked over acts, whether
/// or not it starts something, and loses its number unless the table says that it keeps it. It halts (`Special`) at a
/// number of `CROSSED_HALTS`, and where the line's action does. At all other numbers nothing happens. After `Memory`
/// nothing is said of the world.
#[tactic(auto, unfolding(crate::specs::Acts::cross_of))]
pub fn cross_line(
    alloc: Global,
    level: &Level,
    tables: &PlayTables,
    world: &mut World,
    line: u32,
    side: u32,
    steps: &mut Steps,
) -> Result<Crossed, PlayFault>
    requires fits { Fits level.now tables.now world.old }
    requires line { line < length level.now.lines }
    requires side { side < 2 }
    ensures plays { Plays result world.new (cross_of level.now tables.now world.old line side) }
    ensures fits { OnOk result (Fits level.now tables.now world.new) }

    ensures tics { steps.new.tics ≡ steps.old.tics }
    ensures pages { steps.old.pages ≤ steps.new.pages }
{
    let special = world.line_special(line);
    match walk_row(special) {
        Some((_, _, action, keeps)) => {
            let started = perform(alloc, level, tables, world, line, side, action, steps)?;
            finish(level, world, line, keeps, steps)?;
            Ok(crossed_by(action, started))
        }
        None => {
            if halts_crossed(special) {
                return Err(PlayFault::Halt(Halt::Special(special)));
            }
            Ok(Crossed::Stays)
        }
    }
}

// What an action did to the player who crossed its line.
fn crossed_by(action: Action, started: bool) -> Crossed
    ensures { result ≡ crossed_by action started }
{
    match action {
        Action::Teleport => {
            if started {
                return Crossed::Teleported;
            }
            Crossed::Stays
        }
        _ => Crossed::Stays,
    }
}
