//! The lines that a box lies on.
ghost use Rattle.std.specs.Prelude.{◌≡◌, ◌<◌, length, All, true, fold, OnOk, IfOk};
ghost use Rattle.map_geometry.specs.Blocks.{blocks_in, blocks_of};
ghost use Rattle.block_walk.specs.Near.{near_all};
ghost use Rattle.cow_world.specs.Fits.{FitsLevel};
ghost use Rattle.cow_world.specs.Outcome.{goes, Moves, Plays};
ghost use Rattle.clip_check.specs.Lines.{ways_overlap, overlaps, lies_on, stops, line_tests, narrowed, listed_one, found_one, found_more};
ghost use Rattle.clip_check.specs.Checks.{beside, between, ground_of, lines_found};

use crate::listed::{Listed, MOST_LISTED};
use crate::things::box_of;
use crate::trial::{Checked, Trial};
use block_walk::{NearLines, block_count, lines_in, near_all, sector_of_place};
use cow_world::{Gap, PlayFault, Sector, World};
use game_trait::Halt;
use map_geometry::{Area, Level, Line, blocks_of, box_side};
use std::alloc::Global;

/// A box on no more blocks than so many meets the lines of each block, and takes no memory. On more, the lines are
/// listed once first, since the blocks may share what they list.
const FEW_BLOCKS: u64 = 64;

/// The flag of a line that blocks everything.
const BLOCKS: u16 = 1;

/// The flag of a line that blocks everything but the player.
const BLOCKS_MONSTERS: u16 = 2;

/// What the sector of the place and the lines that the box lies on leave of it. A ninth listed line halts. It takes no
/// memory unless the box lies on more than 64 blocks of the grid.
pub fn find_between(
    alloc: Global,
    level: &Level,
    world: &World,
    trial: &Trial,
) -> Result<Checked, PlayFault>
    requires fits { FitsLevel level.now world.now }
    ensures found { Plays result world.now (beside world.now (lines_found level.now world.now trial.now)) }
    ensures there { IfOk result (λ found. All (λ line. line < length level.now.lines) found.listed) }
{
    let area = box_of(trial);
    let mut found = between(true, &ground(level, world, trial));
    meet_lines(alloc, level, world, trial, &area, &mut found)?;
    Ok(found)
}

/// The sector of the place of a trial.
pub fn ground(level: &Level, world: &World, trial: &Trial) -> Sector
    requires { FitsLevel level.now world.now }
    ensures { result ≡ ground_of level.now world.now trial.now }
{
    world.sector(sector_of_place(level, trial.x, trial.y))
}

/// What is found in a sector before any line was looked at.
pub fn between(clear: bool, sector: &Sector) -> Checked
    ensures { result ≡ between clear sector.now }
{
    Checked {
        clear,
        floor: sector.floor,
        ceiling: sector.ceiling,
        dropoff: sector.floor,
        listed: Listed::new(),
    }
}

// Meets the lines in the blocks of a box, up to the first that blocks.
fn meet_lines(
    alloc: Global,
    level: &Level,
    world: &World,
    trial: &Trial,
    area: &Area,
    found: &mut Checked,
) -> Result<(), PlayFault>
    requires fits { FitsLevel level.now world.now }
    requires there { All (λ line. line < length level.now.lines) found.old.listed }
    ensures found { Moves result found.new (fold (found_more (line_tests level.now world.now trial.now.player area.now)) (goes found.old) (near_all level.now (blocks_in (blocks_of level.now area.now)))) }
    ensures there { OnOk result (All (λ line. line < length level.now.lines) found.new.listed) }
{
    let blocks = blocks_of(level, area);
    if block_count(level, &blocks) <= FEW_BLOCKS {
        return meet_near(level, world, trial, area, near_all(level, &blocks), found);
    }
    let mut lines = Vec::new(alloc);
    lines_in(level, area, &mut lines)?;
    meet_each(level, world, trial, area, &lines, found)
}

// Meets lines, which may come again, up to the first that blocks.
fn meet_near(
    level: &Level,
    world: &World,
    trial: &Trial,
    area: &Area,
    lines: NearLines,
    found: &mut Checked,
) -> Result<(), PlayFault>
    requires fits { FitsLevel level.now world.now }
    requires lines { All (λ line. line < length level.now.lines) lines }
    requires there { All (λ line. line < length level.now.lines) found.old.listed }
    ensures found { Moves result found.new (fold (found_more (line_tests level.now world.now trial.now.player area.now)) (goes found.old) lines.entry) }
    ensures there { OnOk result (All (λ line. line < length level.now.lines) found.new.listed) }
{
    for line in lines {
        if !found.clear {
            return Ok(());
        }
        meet_line(level, world, trial, area, line, found)?;
    }
    Ok(())
}

// Meets the lines of a list, up to the first that blocks.
fn meet_each(
    level: &Level,
    world: &World,
    trial: &Trial,
    area: &Area,
    lines: &[u32],
    found: &mut Checked,
) -> Result<(), PlayFault>
    requires fits { FitsLevel level.now world.now }
    requires lines { All (λ line. line < length level.now.lines) lines.now }
    requires there { All (λ line. line < length level.now.lines) found.old.listed }
    ensures found { Moves result found.new (fold (found_more (line_tests level.now world.now trial.now.player area.now)) (goes found.old) lines.now) }
    ensures there { OnOk result (All (λ line. line < length level.now.lines) found.new.listed) }
{
    for line in lines {
        if !found.clear {
            return Ok(());
        }
        meet_line(level, world, trial, area, *line, found)?;
    }
    Ok(())
}

// Meets one line, or passes it.
fn meet_line(
    level: &Level,
    world: &World,
    trial: &Trial,
    area: &Area,
    line: u32,
    found: &mut Checked,
) -> Result<(), PlayFault>
    requires fits { FitsLevel level.now world.now }
    requires line { line < length level.now.lines }
    requires there { All (λ line. line < length level.now.lines) found.old.listed }
    ensures found { Moves result found.new (found_one (line_tests level.now world.now trial.now.player area.now) found.old line) }
    ensures there { OnOk result (All (λ line. line < length level.now.lines) found.new.listed) }
{
    let record = level.line(line as usize);
    if !lies_on(area, &record) {
        return Ok(());
    }
    if stops(trial.player, &record) {
        found.clear = false;
        return Ok(());
    }
    narrow(found, &world.gap(level, line));
    if world.line_special(line) == 0 {
        return Ok(());
    }
    list(found, line)
}

// Whether a box lies on a line: their rectangles overlap, and no side of the line has all of the box.
fn lies_on(area: &Area, line: &Line) -> bool
    ensures { result ≡ lies_on area.now line.now }
{
    overlaps(area, &line.area) && box_side(line, area).is_none()
}

// Whether two rectangles have an area in common.
fn overlaps(one: &Area, other: &Area) -> bool
    ensures { result ≡ overlaps one.now other.now }
{
    overlaps_across(one, other) && overlaps_along(one, other)
}

// Whether they have columns in common.
fn overlaps_across(one: &Area, other: &Area) -> bool
    ensures { result ≡ ways_overlap one.now.left one.now.right other.now.left other.now.right }
{
    one.right > other.left && one.left < other.right
}

// Whether they have rows in common.
fn overlaps_along(one: &Area, other: &Area) -> bool
    ensures { result ≡ ways_overlap one.now.bottom one.now.top other.now.bottom other.now.top }
{
    one.top > other.bottom && one.bottom < other.top
}

// Whether a line blocks the player, or another thing.
fn stops(player: bool, line: &Line) -> bool
    ensures { result ≡ stops player line.now }
{
    line.back.is_none() || line.has_flag(BLOCKS) || (!player && line.has_flag(BLOCKS_MONSTERS))
}

// What a line's gap leaves of what was found.
fn narrow(found: &mut Checked, gap: &Gap)
    ensures { found.new ≡ narrowed found.old gap.now }
{
    found.floor = found.floor.max(gap.bottom);
    found.ceiling = found.ceiling.min(gap.top);
    found.dropoff = found.dropoff.min(gap.low);
}

// Lists a special line, once. A ninth halts.
fn list(found: &mut Checked, line: u32) -> Result<(), PlayFault>
    ensures { Moves result found.new (listed_one true found.old line) }
{
    if found.listed.contains(line) {
        return Ok(());
    }
    if found.listed.len() >= MOST_LISTED {
        return Err(PlayFault::Halt(Halt::Listed));
    }
    found.listed.push(line);
    Ok(())
}
