//! The grid of blocks, the squares of 128 map units by which a level's lines and things are found.
ghost use Rattle.std.specs.Prelude.{◌≡◌, ◌==◌, ◌*◌, ◌<◌, ◌^◌, pos, ◌-ℤ◌, length, All, IfSome};
ghost use Rattle.std.specs.Int.{int_min};
ghost use Rattle.std.specs.List.{before_first, position};
ghost use Rattle.fixed_angle.specs.Fixed.{wrap32};
ghost use Rattle.map_geometry.specs.Blocks.{blocks_below, block_number, cell_of, end_mark, block_lines, box_around, widened, blocks_from, blocks_of, cut_to_grid};

use crate::level::Level;
use crate::records::Area;
use crate::sides::{difference, sum};

/// A block by its column and row. Those of the grid count from 0, from the west and from the south.
#[derive(Clone, Copy, Debug, PartialEq, Eq)]
pub struct Block {
    pub column: i32,
    pub row: i32,
}

/// The blocks from one column and row to another, all four with them. Some or all may lie outside the grid.
#[derive(Clone, Copy, Debug, PartialEq, Eq)]
pub struct BlockBox {
    pub left: i32,
    pub right: i32,
    pub bottom: i32,
    pub top: i32,
}

/// As far as the largest thing reaches, in fixed point.
const REACH: i32 = 32 * 65536;

/// The word that ends a block's list.
const END_MARK: u16 = 0xFFFF;

/// The square around a place whose sides lie a radius away. Its sides wrap in 32 bits.
#[tactic(auto, using(crate::proofs::Ways::casts), unfolding(crate::specs::Blocks::box_around))]
pub fn box_around(x: i32, y: i32, radius: i32) -> Area
    ensures { result ≡ box_around x y radius }
{
    Area {
        top: sum(y, radius),
        bottom: difference(y, radius),
        left: difference(x, radius),
        right: sum(x, radius),
    }
}

/// An area with 32 map units more on each side, as far as the largest thing reaches: the things that touch the area
/// stand in its blocks. Its sides wrap in 32 bits.
#[tactic(auto, using(crate::proofs::Ways::casts), unfolding(crate::specs::Blocks::widened))]
pub fn widened(area: &Area) -> Area
    ensures { result ≡ widened area.now }
{
    Area {
        top: sum(area.top, REACH),
        bottom: difference(area.bottom, REACH),
        left: difference(area.left, REACH),
        right: sum(area.right, REACH),
    }
}

/// A number, or the last of so many from 0 where that is less.
#[inline]
fn at_most(number: i32, count: u32) -> i32
    ensures { result ≡ int_min number (pos count -ℤ pos 1) }
{
    i64::from(number).min(i64::from(count) - 1) as i32
}

/// A box of blocks without what lies outside a grid of so many columns and rows.
#[tactic(auto, using(crate::proofs::Ways::casts), unfolding(crate::specs::Blocks::cut_to_grid))]
pub fn cut_to_grid(blocks: &BlockBox, width: u32, height: u32) -> BlockBox
    ensures { result ≡ cut_to_grid width height blocks.now }
{
    BlockBox {
        left: blocks.left.max(0),
        right: at_most(blocks.right, width),
        bottom: blocks.bottom.max(0),
        top: at_most(blocks.top, height),
    }
}

/// The blocks that an area touches, in a grid with this south-west corner. An area whose right side is left of its
/// left one touches none.
#[tactic(auto, using(crate::proofs::Ways::casts))]
pub fn blocks_from(origin_x: i32, origin_y: i32, area: &Area) -> BlockBox
    ensures { result ≡ blocks_from origin_x origin_y area.now }
{
    BlockBox {
        left: block_number(origin_x, area.left),
        right: block_number(origin_x, area.right),
        bottom: block_number(origin_y, area.bottom),
        top: block_number(origin_y, area.top),
    }
}

/// The blocks that an area touches. An area whose right side is left of its left one touches none.
pub fn blocks_of(level: &Level, area: &Area) -> BlockBox
    ensures { result ≡ blocks_of level.now area.now }
{
    blocks_from(level.origin_x(), level.origin_y(), area)
}

/// The place of the first end mark.
fn mark_in(words: &[u16]) -> Option<usize>
    ensures place { result ≡ position (λ word. word == end_mark) words.now }
    ensures within { IfSome result (λ place. place < length words.now) }
{
    words.iter().position(|word| *word == END_MARK)
}

/// What stands before the end mark.
fn until_mark(words: &[u16]) -> &[u16]
    ensures { result.now ≡ before_first (λ word. word == end_mark) words.now }
{
    match mark_in(words) {
        Some(place) => &words[..place],
        None => words,
    }
}

/// How many whole blocks a length in fixed point has, rounded down.
#[inline]
pub fn blocks_below(length: i32) -> i32
    ensures { result ≡ blocks_below length }
{
    length >> 23
}

#[inline]
fn way_from(origin: i32, at: i32) -> i32
    ensures { result ≡ wrap32 (at -ℤ origin) }
{
    at.wrapping_sub(origin)
}

#[inline]
fn block_number(origin: i32, at: i32) -> i32
    ensures { result ≡ block_number origin at }
{
    blocks_below(way_from(origin, at))
}

/// The number of a block in a grid of so many columns and rows.
#[inline]
fn cell_of(width: u32, height: u32, column: i32, row: i32) -> Option<u32>
    requires narrow { width < 2 ^ 15 }
    requires low { height < 2 ^ 15 }
    ensures { result ≡ cell_of width height column row }
{
    if column < 0 || row < 0 {
        return None;
    }
    let column = column.unsigned_abs();
    let row = row.unsigned_abs();
    if column >= width || row >= height {
        return None;
    }
    Some(row * width + column)
}

impl Level {
    /// The column in which a coordinate lies, counted from the grid's west side; one to the west of it is negative.
    pub fn column_of(&self, x: i32) -> i32
        ensures { result ≡ block_number self.now.origin_x x }
    {
        block_number(self.origin_x(), x)
    }

    /// The row in which a coordinate lies, counted from the grid's south side; one to the south of it is negative.
    pub fn row_of(&self, y: i32) -> i32
        ensures { result ≡ block_number self.now.origin_y y }
    {
        block_number(self.origin_y(), y)
    }

    /// The number of a block among the cells, row by row from the south; none where the grid doesn't have it.
    pub fn cell_at(&self, column: i32, row: i32) -> Option<u32>
        ensures cell { result ≡ cell_of self.now.width self.now.height column row }
        ensures there { IfSome result (λ cell. cell < length self.now.cells) }
        ensures within { IfSome result (λ cell. cell < self.now.width * self.now.height) }
    {
        cell_of(self.width(), self.height(), column, row)
    }
    /// The lines in a block, as its list has them; none outside the grid.
    pub fn block_lines(&self, column: i32, row: i32) -> &[u16]
        ensures lines { result.now ≡ block_lines self.now column row }
        ensures there { All (λ line. line < length self.now.lines) result.now }
    {
        match self.cell_at(column, row) {
            Some(cell) => {
                let place = self.cell(cell as usize);
                until_mark(&self.parts.words[place as usize..])
            }
            None => &[],
        }
    }

    /// A box of blocks without what lies outside the level's grid.
    pub fn cut(&self, blocks: &BlockBox) -> BlockBox
        ensures { result ≡ cut_to_grid self.now.width self.now.height blocks.now }
    {
        cut_to_grid(blocks, self.width(), self.height())
    }
}
