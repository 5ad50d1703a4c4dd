//! Why the lists that a map spells are no level.
ghost use Rattle.std.specs.Prelude.{◌≡◌};
ghost use Rattle.map_geometry.specs.declared.fault.LevelFault.TheVariants.{Memory};

use std::alloc::{AllocError, AllocFailed};

/// The first thing that is wrong with a map, in the order in which the map is judged.
#[derive(Clone, Copy, Debug, PartialEq, Eq)]
pub enum LevelFault {
    /// The map is of another form: a TEXTMAP, or one with a BEHAVIOR lump.
    MapForm,
    /// The nodes are of an extended kind.
    NodesKind,
    /// A record names something that is not there: the number of the lump among the map's ten, from 1,
    /// and the record's number, from 0.
    LevelRef(u32, usize),
    /// A node that is reached from the last one stands below itself.
    NodeLoop,
    /// The block map has no head, no blocks, too few offsets, or a list without an end.
    BlockShape,
    /// There was not enough memory. Nothing is said of the map.
    Memory,
}

impl From<AllocError> for LevelFault {
    ghost from_gives = { λ _ fault. fault ≡ Memory };

    fn from(_: AllocError) -> Self {
        LevelFault::Memory
    }
}

impl<T: Drop> From<AllocFailed<T>> for LevelFault {
    ghost from_gives = { λ _ fault. fault ≡ Memory };

    fn from(_: AllocFailed<T>) -> Self {
        LevelFault::Memory
    }
}
