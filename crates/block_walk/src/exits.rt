//! The sectors of a level's exits, which a level is told once, since exits never move.
ghost use Rattle.std.specs.Prelude.{◌≡◌, ◌<◌, length, All, IfOk};
ghost use Rattle.map_geometry.specs.Places.{IsKnownIn, sector_of_place};

use crate::places::sector_of_place;
use doom_edge::Memory;
use map_geometry::{Known, Level};
use std::alloc::Global;

/// The number of the things to which teleporters lead.
pub const MARKER: u16 = 14;

/// A place, in fixed point, with its sector.
fn with_sector(level: &Level, x: i32, y: i32) -> Known
    ensures { IsKnownIn level.now result }
{
    let sector = sector_of_place(level, x, y);
    Known { x, y, sector }
}

/// The places of a level's exits with their sectors, in the order of the level's things.
fn exits(alloc: Global, level: &Level) -> Result<Vec<Known>, Memory>
    ensures { IfOk result (λ exits. All (IsKnownIn level.now) exits.items) }
{
    let mut exits = Vec::new(alloc);
    for i in 0..level.thing_count() {
        let spot = level.thing(i);
        if spot.number == MARKER {
            exits.push(with_sector(level, spot.x, spot.y))?;
        }
    }
    Ok(exits)
}

/// Tells a level the sectors of its exits, so that [`sector_of_exit`] need not look for them.
///
/// # Errors
///
/// Where memory is wanting. Then the level knows what it knew before.
pub fn know_exits(alloc: Global, level: &mut Level) -> Result<(), Memory>
    ensures { level.new ≡ level.old }
{
    let known = exits(alloc, level)?;
    level.know(known);
    Ok(())
}

/// The sector of a place, in fixed point, as [`sector_of_place`] has it. No way down the nodes is gone for a place that
/// the level knows.
pub fn sector_of_exit(level: &Level, x: i32, y: i32) -> u32
    ensures place { result ≡ sector_of_place level.now x y }
    ensures there { result < length level.now.sectors }
{
    match level.known_sector(x, y) {
        Some(sector) => sector,
        None => sector_of_place(level, x, y),
    }
}
