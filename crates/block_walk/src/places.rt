//! The subsector and the sector of a place.
ghost use Rattle.std.specs.Prelude.{◌≡◌, ◌<◌, length};
ghost use Rattle.map_geometry.specs.Places.{child_of, subsector_of, sector_of_place};

use map_geometry::{Level, Node, node_side};

/// From here on a child is a subsector.
const SUBSECTOR: u16 = 0x8000;

/// The child of a node on whose side a place is.
#[inline]
#[tactic(auto, unfolding(map_geometry::specs::Places::child_of))]
fn child_at(node: &Node, x: i32, y: i32) -> u16
    ensures { result ≡ child_of node.now x y }
{
    if node_side(node, x, y) == 0 {
        node.child_0
    } else {
        node.child_1
    }
}

/// The subsector of a place, in fixed point. From the last node the way goes down, at each node to the child on
/// whose side the place is. Where there are no nodes it is the first subsector.
pub fn subsector_at(level: &Level, x: i32, y: i32) -> u32
    ensures place { result ≡ subsector_of level.now x y }
    ensures there { result < length level.now.subsectors }
{
    let count = level.node_count();
    if count == 0 {
        return 0;
    }
    let mut child = child_at(&level.node(count - 1), x, y);
    for _step in 0..count {
        if child >= SUBSECTOR {
            return u32::from(child - SUBSECTOR);
        }
        child = child_at(&level.node(usize::from(child)), x, y);
    }
    unreachable!()
}

/// The sector of a place, in fixed point: that of its subsector.
#[tactic(auto, unfolding(map_geometry::specs::Places::sector_of_place))]
pub fn sector_of_place(level: &Level, x: i32, y: i32) -> u32
    ensures place { result ≡ sector_of_place level.now x y }
    ensures there { result < length level.now.sectors }
{
    level.subsector(subsector_at(level, x, y) as usize).sector
}
