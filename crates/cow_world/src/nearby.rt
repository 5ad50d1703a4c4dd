//! The things of many blocks.
ghost use Rattle.std.specs.Prelude.{◌≡◌, ◌<◌, ◌++◌, length, All, OnOk};
ghost use Rattle.map_geometry.specs.Blocks.{blocks_in};
ghost use Rattle.cow_world.specs.Flat.{IsLive, parts, grid_of};
ghost use Rattle.cow_world.specs.Places.{things_in};

use crate::world::World;
use doom_edge::Memory;
use link_order::Things;
use map_geometry::{BlockBox, Level};

impl World {
    /// Appends the things in the blocks of a box that were linked and are present: block by block, column by column
    /// from the left and each column from the bottom, and in a block the last linked first. It takes no memory as long
    /// as `out` holds no more than `FEW_THINGS`, and about the time of the blocks that lie in the grid. After `Memory`
    /// nothing is said of `out`.
    pub fn things_in(
        &self,
        level: &Level,
        blocks: &BlockBox,
        out: &mut Things,
    ) -> Result<(), Memory>
        requires live { IsLive self.now }
        requires grid { self.now.grid ≡ grid_of level.now }
        ensures things { OnOk result (out.new.items ≡ out.old.items ++ things_in self.now (blocks_in blocks.now)) }
        ensures there { OnOk result (All (λ thing. thing < length (parts self.now).things) (things_in self.now (blocks_in blocks.now))) }
    {
        for block in level.blocks_in(blocks) {
            self.push_linked(level, block.column, block.row, out)?;
        }
        Ok(())
    }
}
