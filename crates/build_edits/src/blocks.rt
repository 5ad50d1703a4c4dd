//! Edits of tics that stand in blocks, one behind the other. So that an edit moves few tics, a block that has grown
//! long is halved where an edit finds it.
ghost use Rattle.std.specs.Prelude.{◌≡◌, ◌+◌, ◌<◌, ◌≤◌, [], length, take, slice_get, Some, OnOk, OnErr};
ghost use Rattle.std.specs.List.{splice};
ghost use Rattle.build_edits.specs.Kept.{joined, IsSpot};

use crate::pieces;
use doom_edge::Memory;
use lmp_codec::Tic;

/// A block that has more tics is halved.
pub const LONG_BLOCK: usize = 2048;

/// Where a tic stands: its block, and its place in that block.
#[derive(Clone, Copy)]
pub struct Spot {
    pub block: usize,
    pub place: usize,
}

/// Where the tic at a place stands.
fn find_spot(blocks: &Vec<Vec<Tic>>, place: usize) -> Spot
    requires there { place < length (joined blocks.now.items) }
    ensures spot { IsSpot blocks.now.items place result.block result.place }
{
    let mut block = 0;
    let mut rest = place;
    'finding: while blocks[block].len() <= rest {
        rest -= blocks[block].len();
        block += 1;
    }
    Spot { block, place: rest }
}

/// Makes two blocks of one that has more tics than so many, which the first then has. Without memory nothing changes.
fn cut(blocks: &mut Vec<Vec<Tic>>, block: usize, most: usize) -> Result<(), Memory>
    requires there { block < length blocks.old.items }
    ensures same { joined blocks.new.items ≡ joined blocks.old.items }
{
    if blocks[block].len() <= most {
        return Ok(());
    }
    let tail = Vec::from_slice(*blocks.allocator(), &blocks[block][most..])?;
    blocks.insert(block + 1, tail)?;
    blocks[block].truncate(most);
    Ok(())
}

/// Where the tic at a place stands, in a block that was halved if it was long and there was memory.
fn near(blocks: &mut Vec<Vec<Tic>>, place: usize) -> Spot
    requires there { place < length (joined blocks.old.items) }
    ensures same { joined blocks.new.items ≡ joined blocks.old.items }
    ensures spot { IsSpot blocks.new.items place result.block result.place }
{
    let found = find_spot(blocks, place);
    let len = blocks[found.block].len();
    if len <= LONG_BLOCK {
        return found;
    }
    let _ = cut(blocks, found.block, len / 2);
    find_spot(blocks, place)
}

/// The tic at a place.
pub fn tic_at(blocks: &Vec<Vec<Tic>>, place: usize) -> Tic
    requires there { place < length (joined blocks.now.items) }
    ensures tic { slice_get (joined blocks.now.items) place ≡ Some result }
{
    let found = find_spot(blocks, place);
    blocks[found.block][found.place]
}

/// Puts these tics behind the one before a place.
pub fn insert(blocks: &mut Vec<Vec<Tic>>, place: usize, others: &[Tic]) -> Result<(), Memory>
    requires some { 0 < place }
    requires inside { place ≤ length (joined blocks.old.items) }
    ensures ok { OnOk result (joined blocks.new.items ≡ splice (joined blocks.old.items) place place others.now) }
    ensures err { OnErr result (joined blocks.new.items ≡ joined blocks.old.items) }
{
    let before = near(blocks, place - 1);
    pieces::insert(&mut blocks[before.block], before.place + 1, others)?;
    Ok(())
}

/// Removes the block at whose start a place is, if it has no more tics than that, or else tics of one block from the
/// place on. It answers how many, which are at most as many as asked for.
fn erase_some(blocks: &mut Vec<Vec<Tic>>, place: usize, most: usize) -> usize
    requires some { 0 < most }
    requires there { place < length (joined blocks.old.items) }
    ensures erased { joined blocks.new.items ≡ splice (joined blocks.old.items) place (place + result) [] }
    ensures some { 0 < result }
    ensures most { result ≤ most }
{
    let found = find_spot(blocks, place);
    let len = blocks[found.block].len();
    if found.place == 0 && len <= most {
        blocks.remove(found.block);
        return len;
    }
    erase_inside(blocks, place, most)
}

/// Removes tics of one block from a place on, and answers how many: at most as many as asked for.
fn erase_inside(blocks: &mut Vec<Vec<Tic>>, place: usize, most: usize) -> usize
    requires some { 0 < most }
    requires there { place < length (joined blocks.old.items) }
    ensures erased { joined blocks.new.items ≡ splice (joined blocks.old.items) place (place + result) [] }
    ensures some { 0 < result }
    ensures most { result ≤ most }
{
    let from = near(blocks, place);
    let gone = most.min(blocks[from.block].len() - from.place);
    pieces::erase(&mut blocks[from.block], from.place, from.place + gone);
    gone
}

/// Removes the tics from one place to another.
pub fn erase(blocks: &mut Vec<Vec<Tic>>, from: usize, to: usize)
    requires order { from ≤ to }
    requires inside { to ≤ length (joined blocks.old.items) }
    ensures erased { joined blocks.new.items ≡ splice (joined blocks.old.items) from to [] }
{
    let mut left = to - from;
    'erasing: while left > 0 {
        left -= erase_some(blocks, from, left);
    }
}

/// Cuts the first block that has a tic, where it is longer than that and there is memory.
pub fn shorten_first(blocks: &mut Vec<Vec<Tic>>, most: usize)
    requires some { 0 < length (joined blocks.old.items) }
    ensures same { joined blocks.new.items ≡ joined blocks.old.items }
{
    let first = find_spot(blocks, 0).block;
    let _ = cut(blocks, first, most);
}

/// The tics of the first block that has one.
pub fn first(blocks: &Vec<Vec<Tic>>) -> &[Tic]
    requires some { 0 < length (joined blocks.now.items) }
    ensures first { result.now ≡ take (length result.now) (joined blocks.now.items) }
    ensures some { 0 < length result.now }
    ensures within { length result.now ≤ length (joined blocks.now.items) }
{
    &blocks[find_spot(blocks, 0).block]
}
