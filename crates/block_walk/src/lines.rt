//! The lines in the blocks of a box.
ghost use Rattle.std.specs.Prelude.{◌≡◌, ◌/◌, ◌<◌, ◌++◌, ◌∷◌, [], length, IfSome, IfOk, All, OnOk, None};
ghost use Rattle.map_geometry.specs.Level.{IsCellIn};
ghost use Rattle.map_geometry.specs.Blocks.{block_list, blocks_in, blocks_of};
ghost use Rattle.block_walk.specs.Near.{near};
ghost use Rattle.block_walk.specs.Steps.{HasBits, IsClear, AreLines, AreWalked, ArePassed, LieIn, Adds, Meets, itself};

use crate::blocks::{block_count, list_of};
use crate::lists::Walked;
use crate::marks::{is_marked, mark, mark_range};
use doom_edge::Memory;
use map_geometry::{Area, Block, BlockBox, Blocks, Level, blocks_of};

/// A box of so few blocks is walked without bits for the words of the block map. What two of its lists share is then
/// walked twice, which costs less than to clear and set bits.
const FEW_BLOCKS: u64 = 9;

/// The word that ends a list.
pub const END_MARK: u16 = 0xFFFF;

/// Appends a line that was not met.
#[inline]
fn add_line(line: u16, met: &mut [u64], out: &mut Vec<u32>) -> Result<(), Memory>
    requires { line / 64 < length met.old }
    ensures { OnOk result (Adds itself met.old met.new out.old.items out.new.items (line ∷ [])) }
{
    if mark(met, line) {
        out.push(u32::from(line))?;
    }
    Ok(())
}

/// Appends the lines of a list that were not met, up to its end or to a word that was passed before: from there on all
/// lines were met. The words from the list's place up to the one that it answers are passed now.
fn add_list(
    level: &Level,
    place: u32,
    passed: &[u64],
    met: &mut [u64],
    out: &mut Vec<u32>,
) -> Result<usize, Memory>
    requires list { IsCellIn level.now place }
    requires bits { HasBits level.now met.old }
    requires passed { ArePassed level.now met.old passed.now }
    ensures lines { OnOk result
        (Adds itself met.old met.new out.old.items out.new.items (block_list level.now.words place)) }
    ensures end { IfOk result (LieIn level.now.words place) }
{
    for at in place as usize..level.word_count() {
        let word = level.word(at);
        if word == END_MARK {
            return Ok(at);
        }
        if is_marked(passed, at) {
            return Ok(at);
        }
        add_line(word, met, out)?;
    }
    Ok(place as usize)
}

/// Appends the lines of a block that were not met, unless its list was walked.
fn add_block(
    level: &Level,
    block: Block,
    walked: &mut Walked,
    passed: &mut [u64],
    met: &mut [u64],
    out: &mut Vec<u32>,
) -> Result<(), Memory>
    requires bits { HasBits level.now met.old }
    requires walked { AreWalked level.now met.old walked.old }
    requires passed { ArePassed level.now met.old passed.old }
    ensures lines { OnOk result
        (Meets itself level.now walked.new met.old met.new out.old.items out.new.items (block ∷ [])) }
    ensures passed { OnOk result (ArePassed level.now met.new passed.new) }
{
    let Some(place) = list_of(level, block) else {
        return Ok(());
    };
    if walked.contains(place) {
        return Ok(());
    }
    let end = add_list(level, place, passed, met, out)?;
    walked.add(place);
    mark_range(passed, place as usize, end);
    Ok(())
}

/// Appends the lines of blocks that were not met.
fn add_blocks(
    level: &Level,
    blocks: Blocks,
    walked: &mut Walked,
    passed: &mut [u64],
    met: &mut [u64],
    out: &mut Vec<u32>,
) -> Result<(), Memory>
    requires bits { HasBits level.now met.old }
    requires walked { AreWalked level.now met.old walked.old }
    requires passed { ArePassed level.now met.old passed.old }
    ensures { OnOk result
        (Meets itself level.now walked.new met.old met.new out.old.items out.new.items blocks) }
{
    for block in blocks {
        add_block(level, block, walked, passed, met, out)?;
    }
    Ok(())
}

/// Replaces `out` by the lines of a box of blocks.
fn fill(
    level: &Level,
    blocks: &BlockBox,
    passed: &mut [u64],
    met: &mut [u64],
    out: &mut Vec<u32>,
) -> Result<(), Memory>
    requires bits { HasBits level.now met.old }
    requires clear { IsClear met.old }
    requires passed { IsClear passed.old }
    ensures lines { OnOk result (out.new.items ≡ near level.now (blocks_in blocks.now)) }
    ensures there { OnOk result (AreLines level.now out.new.items) }
{
    out.clear();
    let walked = &mut Walked::new();
    add_blocks(level, level.blocks_in(blocks), walked, passed, met, out)?;
    Ok(())
}

/// The same, with bits for the words of the block map where the box has many blocks.
fn fill_by_size(
    level: &Level,
    blocks: &BlockBox,
    met: &mut [u64],
    out: &mut Vec<u32>,
) -> Result<(), Memory>
    requires bits { HasBits level.now met.old }
    requires clear { IsClear met.old }
    ensures lines { OnOk result (out.new.items ≡ near level.now (blocks_in blocks.now)) }
    ensures there { OnOk result (AreLines level.now out.new.items) }
{
    let words = level.word_count();
    if block_count(level, blocks) <= FEW_BLOCKS {
        fill(level, blocks, &mut [], met, out)
    } else if words <= FEW_MARKS {
        fill(level, blocks, &mut [0; FEW_WORDS], met, out)
    } else if words <= MANY_MARKS {
        fill(level, blocks, &mut [0; MANY_WORDS], met, out)
    } else {
        fill(level, blocks, &mut [0; ALL_WORDS], met, out)
    }
}

/// Bits for so many lines of a level, or words of its block map, and how many numbers of 64 bits have them. Clearing
/// them is a part of the cost of a walk, so small levels have few.
pub const FEW_MARKS: usize = 4096;

pub const FEW_WORDS: usize = 64;

pub const MANY_MARKS: usize = 16384;

pub const MANY_WORDS: usize = 256;

/// Numbers that have a bit for each line that a list can name, and for each word at which a list can begin.
pub const ALL_WORDS: usize = 1024;

/// Replaces `out` by the lines in the blocks that an area touches: the blocks' lists, column by column from the
/// west and each column from the south, without later repeats. Blocks outside the grid have none, and cost nothing. In a
/// box of more than nine blocks no word of the block map is walked twice.
/// Nothing is said of `out` after `Memory`.
pub fn lines_in(level: &Level, area: &Area, out: &mut Vec<u32>) -> Result<(), Memory>
    ensures lines { OnOk result (out.new.items ≡ near level.now (blocks_in (blocks_of level.now area.now))) }
    ensures there { OnOk result (All (λ line. line < length level.now.lines) out.new.items) }
{
    let blocks = blocks_of(level, area);
    let lines = level.line_count();
    if lines <= FEW_MARKS {
        fill_by_size(level, &blocks, &mut [0; FEW_WORDS], out)
    } else if lines <= MANY_MARKS {
        fill_by_size(level, &blocks, &mut [0; MANY_WORDS], out)
    } else {
        fill_by_size(level, &blocks, &mut [0; ALL_WORDS], out)
    }
}
