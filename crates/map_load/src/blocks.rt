//! Whether the lists of a block map end, and whether their entries are lines, in time linear in the
//! words.

ghost use Rattle.std.specs.Prelude.{◌≡◌, ◌≢◌, ◌↔◌, ◌⊎◌, ℕ, ◌<◌, ◌≤◌, length, slice_index, All, IsTrue, IfOk, MatchOption};
ghost use Rattle.fixed_angle.specs.FirstFault.{FirstFault};
ghost use Rattle.map_geometry.specs.Blocks.{HasBlockShape, ReachesEnd, block_list, end_mark};
ghost use Rattle.map_geometry.specs.Conditions.{block_checks, cell_conditions};
ghost use Rattle.map_geometry.specs.Level.{lists_of};
ghost use Rattle.map_load.specs.Steps.{TellsSound, every_cell};

use map_geometry::{LevelFault, LevelParts};
use std::alloc::{AllocError, Global};

/// The number of the lump of the block map among a map's ten.
const BLOCKMAP: u32 = 10;

/// The word that ends a list.
const END_MARK: u16 = 0xFFFF;

/// The place of the last end mark.
fn last_end(words: &[u16]) -> Option<usize>
    ensures { MatchOption result
        ((k : ℕ) → k < length words.now → slice_index words.now k ≢ end_mark)
        (λ place. (place < length words.now)
        × (slice_index words.now place ≡ end_mark)
        × ((k : ℕ) → place < k → k < length words.now → slice_index words.now k ≢ end_mark)) }
{
    for k in (0..words.len()).rev() {
        if words[k] == END_MARK {
            return Some(k);
        }
    }
    None
}

/// Whether each list that begins at one of these places ends. It does where it begins at or before
/// the last end mark.
fn all_end(words: &[u16], cells: &[u32]) -> bool
    ensures { IsTrue result ↔ All (ReachesEnd words.now) cells.now }
{
    match last_end(words) {
        Some(place) => cells.iter().all(|&offset| offset as usize <= place),
        None => cells.is_empty(),
    }
}

/// Whether a list is sound that begins with this word, where `rest` says whether the list behind it
/// is.
fn is_sound(word: u16, lines: usize, rest: bool) -> bool
    ensures { IsTrue result ↔ ((word ≡ end_mark) ⊎ ((word < lines) × IsTrue rest)) }
{
    word == END_MARK || (usize::from(word) < lines && rest)
}

/// For each place of the words, whether the list that begins there has numbers of lines as its
/// entries.
fn sound_lists(alloc: Global, words: &[u16], lines: usize) -> Result<Vec<bool>, AllocError>
    ensures { IfOk result (λ sound. TellsSound words.now lines sound.items) }
{
    let mut sound = vec![in alloc; false; words.len()]?;
    let mut rest_is_sound = true;
    for k in (0..words.len()).rev() {
        rest_is_sound = is_sound(words[k], lines, rest_is_sound);
        sound[k] = rest_is_sound;
    }
    Ok(sound)
}

/// Whether the block map has its head, at least one block, the place of each block's list, and its
/// end.
fn has_shape(parts: &LevelParts) -> bool
    ensures { IsTrue result ↔ HasBlockShape (lists_of parts.now).words (lists_of parts.now).cells }
{
    let words = &parts.words;
    words.len() >= 4
        && words[2].cast_signed() > 0
        && words[3].cast_signed() > 0
        && 4 + usize::from(words[2]) * usize::from(words[3]) <= words.len()
        && all_end(words, &parts.cells)
}

/// The first fault of a block's list, which ends.
fn cell_fault(parts: &LevelParts, sound: &[bool], i: usize) -> Option<LevelFault>
    requires there { i < length (lists_of parts.now).cells }
    requires ends { All (ReachesEnd (lists_of parts.now).words) (lists_of parts.now).cells }
    requires sound { TellsSound (lists_of parts.now).words (length (lists_of parts.now).lines)
        sound.now }
    ensures { FirstFault (cell_conditions (lists_of parts.now) i) result }
{
    let offset = parts.cells[i] as usize;
    if !sound[offset] {
        return Some(LevelFault::LevelRef(BLOCKMAP, i));
    }
    None
}

/// The first fault of the blocks' lists, of which each ends.
fn cells_fault(alloc: Global, parts: &LevelParts) -> Result<Option<LevelFault>, AllocError>
    requires { All (ReachesEnd (lists_of parts.now).words) (lists_of parts.now).cells }
    ensures { IfOk result (FirstFault (every_cell (lists_of parts.now))) }
{
    let sound = sound_lists(alloc, &parts.words, parts.lines.len())?;
    for i in 0..parts.cells.len() {
        if let Some(fault) = cell_fault(parts, &sound, i) {
            return Ok(Some(fault));
        }
    }
    Ok(None)
}

/// The first fault of the block map.
pub fn blocks_fault(alloc: Global, parts: &LevelParts) -> Result<Option<LevelFault>, AllocError>
    ensures { IfOk result (FirstFault (block_checks (lists_of parts.now))) }
{
    if !has_shape(parts) {
        return Ok(Some(LevelFault::BlockShape));
    }
    cells_fault(alloc, parts)
}
