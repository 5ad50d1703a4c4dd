//! The blocks of a box, one after the other.
ghost use Rattle.std.specs.Prelude.{◌≡◌};
ghost use Rattle.std.specs.Iterator.{YieldsFirst, item_count};
ghost use Rattle.map_geometry.specs.Blocks.{blocks_in, cut_to_grid};
ghost use Rattle.map_geometry.specs.Level.{HasLines};

use crate::blocks::{Block, BlockBox, cut_to_grid};
use crate::level::Level;
use std::marker::Model;

/// The blocks that are left of a box: column by column from the west, and each column from the south.
#[derive(Drop)]
pub struct Blocks {
    blocks: BlockBox,
    at: Block,
}

impl Model for Blocks {
    ghost use Rattle.std.specs.Prelude.{List};
    ghost use Rattle.map_geometry.specs.declared.blocks.Block.{Block};
    ghost use Rattle.map_geometry.specs.Blocks.{blocks_left, IsOnBox};

    ghost Value = { List Block };

    ghost view = { λ left. blocks_left left.blocks left.at };

    ghost invariant = { λ left. IsOnBox left.blocks left.at };
}

impl Iterator for Blocks {
    type Item = Block;

    ghost next_gives = { YieldsFirst (λ left. left) };

    ghost remaining = { item_count (λ left. left) };

    fn next(&mut self) -> Option<Block> {
        let at = self.at;
        if at.column > self.blocks.right || at.row > self.blocks.top {
            return None;
        }
        if at.row < self.blocks.top {
            self.at.row = at.row + 1;
        } else {
            self.at = Block {
                column: at.column + 1,
                row: self.blocks.bottom,
            };
        }
        Some(at)
    }
}

impl Level {
    /// The blocks of a box that the level's grid has. The lines in each are there.
    pub fn blocks_in(&self, blocks: &BlockBox) -> Blocks
        ensures blocks { result ≡ blocks_in (cut_to_grid self.now.width self.now.height blocks.now) }
        ensures there { HasLines self.now }
    {
        let blocks = cut_to_grid(blocks, self.parts.width, self.parts.height);
        Blocks {
            blocks,
            at: Block {
                column: blocks.left,
                row: blocks.bottom,
            },
        }
    }
}
