// Lines that are used.
ghost use Rattle.std.specs.Prelude.{◌≡◌, ◌<◌, ◌≤◌, length, OnOk};
ghost use Rattle.cow_world.specs.Flat.{line_special_at};
ghost use Rattle.cow_world.specs.Fits.{Fits};
ghost use Rattle.cow_world.specs.Outcome.{Moves};
ghost use Rattle.line_specials.specs.Table.{use_row};
ghost use Rattle.line_specials.specs.Acts.{use_line_of};

use crate::acts::{finish, perform};
use crate::table::{halts_used, use_row};
use cow_world::{PlayFault, World};
use doom_edge::Steps;
use fixed_angle::PlayTables;
use game_trait::Halt;
use map_geometry::Level;
use std::alloc::Global;

/// The player has used a line from a side; from its back nothing happens. A switch or a door acts where it starts
/// something, and then loses its number unless the table says that it keeps it. It halts (`Special`) at a number of
/// `USED_HALTS`, and where the line's action does. At all other numbers nothing happens. After `Memory` nothing is said
/// of the world.
#[tactic(auto, unfolding(crate::specs::Acts::use_line_of))]
pub fn use_line(
    alloc: Global,
    level: &Level,
    tables: &PlayTables,
    world: &mut World,
    line: u32,
    side: u32,
    steps: &mut Steps,
) -> Result<(), PlayFault>
    requires fits { Fits level.now tables.now world.old }
    requires line { line < length level.now.lines }
    requires side { side < 2 }
    ensures moves { Moves result world.new (use_line_of level.now tables.now world.old line side) }
    ensures fits { OnOk result (Fits level.now tables.now world.new) }

    ensures tics { steps.new.tics ≡ steps.old.tics }
    ensures pages { steps.old.pages ≤ steps.new.pages }
{
    if side != 0 {
        return Ok(());
    }
    let special = world.line_special(line);
    match use_row(special) {
        Some((_, _, action, keeps)) => {
            if perform(alloc, level, tables, world, line, side, action, steps)? {
                finish(level, world, line, keeps, steps)?;
            }
            Ok(())
        }
        None => {
            if halts_used(special) {
                return Err(PlayFault::Halt(Halt::Special(special)));
            }
            Ok(())
        }
    }
}
