//! The lists of the block map, by blocks, and how many blocks there are.
ghost use Rattle.std.specs.Prelude.{◌≡◌, ◌≤◌, ◌≤ℤ◌, ◌^◌, pos, length, IfSome, option_map};
ghost use Rattle.map_geometry.specs.Blocks.{span, blocks_in, cut_to_grid};
ghost use Rattle.map_geometry.specs.Level.{IsCellIn};
ghost use Rattle.block_walk.specs.Near.{place_of};

use map_geometry::{Block, BlockBox, Level};

/// The place of a block's list among the words of the block map; none outside the grid.
#[inline]
#[tactic(auto, unfolding(crate::specs::Near::place_of))]
pub fn list_of(level: &Level, block: Block) -> Option<u32>
    ensures place { result ≡ place_of level.now block }
    ensures sound { IfSome result (IsCellIn level.now) }
{
    match level.cell_at(block.column, block.row) {
        Some(cell) => Some(level.cell(cell as usize)),
        None => None,
    }
}

/// How many whole numbers there are from one to another, both with them.
#[inline]
#[tactic(auto, using(crate::proofs::Slopes::casts))]
fn span_length(low: i32, high: i32) -> u32
    requires { pos 0 ≤ℤ low }
    ensures count { result ≡ length (span low high) }
    ensures few { result ≤ 2 ^ 31 }
{
    if low > high {
        return 0;
    }
    (high - low).unsigned_abs() + 1
}

/// How many blocks of a box the level's grid has.
#[tactic(auto, using(crate::proofs::Slopes::casts))]
pub fn block_count(level: &Level, blocks: &BlockBox) -> u64
    ensures { result ≡ length (blocks_in (cut_to_grid level.now.width level.now.height blocks.now)) }
{
    let blocks = level.cut(blocks);
    let columns = span_length(blocks.left, blocks.right);
    let rows = span_length(blocks.bottom, blocks.top);
    u64::from(columns) * u64::from(rows)
}
