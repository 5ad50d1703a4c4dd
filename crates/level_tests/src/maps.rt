//! Levels of sample maps.

use map_geometry::Level;
use map_load::load;
use sample_inputs::{MapPlan, wad};
use std::alloc::{AllocError, Global};
use std::test::Fail;
use wad_lumps::Wad;

fn level_of(alloc: Global, bytes: Vec<u8>) -> Result<Level, Fail> {
    let wad = Wad::read(bytes)?;
    let spans = wad.map(alloc, 1, 1)?;
    let level = load(alloc, &wad, &spans)?;
    Ok(level)
}

/// The level of a plan.
pub(crate) fn level(alloc: Global, plan: &MapPlan) -> Result<Level, Fail> {
    level_of(alloc, wad(alloc, plan)?)
}

/// Puts the words behind the file. The last entry of the directory, which ends the file, names them.
fn put_blocks(bytes: &mut Vec<u8>, words: &[i64]) -> Result<(), AllocError> {
    let place = bytes.len();
    let entry = place.wrapping_sub(16);
    let size = words.len().wrapping_mul(2);
    put_word(bytes, entry, place);
    put_word(bytes, entry.wrapping_add(4), size);
    push_words(bytes, words)
}

/// Puts a number in the place of four bytes.
fn put_word(bytes: &mut Vec<u8>, at: usize, number: usize) {
    let number = u32::try_from(number).unwrap_or(u32::MAX);
    for (i, byte) in number.to_le_bytes().iter().enumerate() {
        if let Some(old) = bytes.get_mut(at.wrapping_add(i)) {
            *old = *byte;
        }
    }
}

/// Appends numbers, two bytes each.
pub(crate) fn push_words(bytes: &mut Vec<u8>, words: &[i64]) -> Result<(), AllocError> {
    for word in words {
        bytes.extend_from_slice(&word.to_le_bytes()[..2])?;
    }
    Ok(())
}

/// The level of a plan with another block map.
pub(crate) fn level_with_blocks(
    alloc: Global,
    plan: &MapPlan,
    words: &[i64],
) -> Result<Level, Fail> {
    let mut bytes = wad(alloc, plan)?;
    put_blocks(&mut bytes, words)?;
    level_of(alloc, bytes)
}
