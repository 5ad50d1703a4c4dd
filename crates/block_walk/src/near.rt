//! The lines in the blocks of a box, one after the other, with repeats.
ghost use Rattle.std.specs.Prelude.{◌≡◌, ◌<◌, length, All};
ghost use Rattle.std.specs.Iterator.{YieldsFirst, item_count};
ghost use Rattle.map_geometry.specs.Blocks.{blocks_in};
ghost use Rattle.block_walk.specs.Near.{near_all};

use map_geometry::{BlockBox, Blocks, Level};
use std::marker::Model;

/// The lines that are left in the blocks of a box: block by block, and in each as its list has them. A line that
/// stands in several blocks comes with each of them.
#[derive(Drop)]
pub struct NearLines<'a> {
    level: &'a Level,
    blocks: Blocks,
    list: &'a [u16],
}

impl<'a> Model for NearLines<'a> {
    ghost use Rattle.std.specs.Prelude.{ℕ, List, ◌++◌};
    ghost use Rattle.block_walk.specs.Near.{near_all};

    ghost Value = { List ℕ };

    ghost view = { λ left. left.list.now ++ near_all left.level.now left.blocks };
}

impl<'a> Iterator for NearLines<'a> {
    type Item = u32;

    ghost next_gives = { YieldsFirst (λ left. left) };

    ghost remaining = { item_count (λ left. left) };

    fn next(&mut self) -> Option<u32> {
        while self.list.is_empty() {
            let block = self.blocks.next()?;
            self.list = self.level.block_lines(block.column, block.row);
        }
        let line = self.list[0];
        self.list = &self.list[1..];
        Some(u32::from(line))
    }
}

/// The lines in the blocks of a box, with repeats. It takes no memory, and blocks outside the grid cost nothing: for
/// those who ask whether some line passes a test, or for the greatest or least of what the lines have.
pub fn near_all<'a>(level: &'a Level, blocks: &BlockBox) -> NearLines<'a>
    ensures lines { result ≡ near_all level.now (blocks_in blocks.now) }
    ensures there { All (λ line. line < length level.now.lines) result }
{
    NearLines {
        level,
        blocks: level.blocks_in(blocks),
        list: &[],
    }
}
