//! All lists of a map.

ghost use Rattle.std.specs.Prelude.{◌≡◌, ◌*ℤ◌, pos, IfOk, slice_index};
ghost use Rattle.map_geometry.specs.Derived.{signed_word};
ghost use Rattle.map_geometry.specs.Level.{lists_of};
ghost use Rattle.wad_lumps.specs.Map.{AreSpans};
ghost use Rattle.map_load.specs.Spelled.{cells_of, spelled};

use crate::{lumps, records};
use map_geometry::LevelParts;
use std::alloc::{AllocError, Global};

/// A word of the block map's head, and 0 where it is missing.
fn head_word(words: &[u16], i: usize) -> u16
    ensures { result ≡ slice_index words.now i }
{
    words.get(i).copied().unwrap_or(0)
}

/// The places of the blocks' lists, so far as there are words.
fn cells(alloc: Global, words: &[u16]) -> Result<Vec<u32>, AllocError>
    ensures { IfOk result (λ cells. cells.items ≡ cells_of words.now) }
{
    let count = usize::from(head_word(words, 2)) * usize::from(head_word(words, 3));
    words
        .iter()
        .skip(4)
        .take(count)
        .map(|&word| u32::from(word))
        .collect(alloc)
}

/// One part of the block map's origin, in fixed point.
fn origin(words: &[u16], i: usize) -> i32
    ensures { result ≡ signed_word (slice_index words.now i) *ℤ pos 65536 }
{
    records::units(head_word(words, i).cast_signed())
}

/// All lists that a map's lumps spell. What belongs to each sector is left empty.
pub fn parts(
    alloc: Global,
    bytes: &[u8],
    spans: &[(usize, usize)],
    episode_form: bool,
) -> Result<LevelParts, AllocError>
    requires { AreSpans bytes.now spans.now }
    ensures { IfOk result (λ parts. lists_of parts ≡ spelled bytes.now spans.now episode_form) }
{
    let things = lumps::things(alloc, bytes, spans[0])?;
    let sides = lumps::sides(alloc, bytes, spans[2])?;
    let vertices = lumps::vertices(alloc, bytes, spans[3])?;
    let lines = lumps::lines(alloc, bytes, &vertices, &sides, spans[1])?;
    let segs = lumps::segs(alloc, bytes, spans[4])?;
    let subsectors = lumps::subsectors(alloc, bytes, &lines, &sides, &segs, spans[5])?;
    let nodes = lumps::nodes(alloc, bytes, spans[6])?;
    let sectors = lumps::sectors(alloc, bytes, spans[7])?;
    let words = lumps::words(alloc, bytes, spans[9])?;
    let cells = cells(alloc, &words)?;
    let origin_x = origin(&words, 0);
    let origin_y = origin(&words, 1);
    let width = u32::from(head_word(&words, 2));
    let height = u32::from(head_word(&words, 3));
    Ok(LevelParts {
        things,
        lines,
        sides,
        vertices,
        segs,
        subsectors,
        nodes,
        sectors,
        cells,
        words,
        origin_x,
        origin_y,
        width,
        height,
        episode_form,
        sector_lines: Vec::new(alloc),
        outlines: Vec::new(alloc),
    })
}
