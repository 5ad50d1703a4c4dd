//! The grid of blocks.
ghost use Rattle.std.specs.Prelude.{◌≡◌, ◌*◌, ◌<◌, ◌^◌, IfSome};
ghost use Rattle.cow_world.specs.Flat.{grid_of};
ghost use Rattle.cow_world.specs.Places.{cell_under};

use map_geometry::Level;

/// The grid of a level's blocks: its south-west corner in fixed point, and its columns and rows. A block is 128 map
/// units wide and high.
#[derive(Clone, Copy, Debug, PartialEq, Eq)]
pub struct Grid {
    pub origin_x: i32,
    pub origin_y: i32,
    pub width: u32,
    pub height: u32,
}

/// The grid of a level.
pub(crate) fn level_grid(level: &Level) -> Grid
    ensures grid { result ≡ grid_of level.now }
    ensures narrow { result.width < 2 ^ 15 }
    ensures low { result.height < 2 ^ 15 }
{
    Grid {
        origin_x: level.origin_x(),
        origin_y: level.origin_y(),
        width: level.width(),
        height: level.height(),
    }
}

/// The number of the block in which a place lies, where the level has one.
pub(crate) fn cell_under(level: &Level, x: i32, y: i32) -> Option<u32>
    ensures cell { result ≡ cell_under (grid_of level.now) x y }
    ensures within { IfSome result (λ cell. cell < level.now.width * level.now.height) }
{
    level.cell_at(level.column_of(x), level.row_of(y))
}
