//! Why a file is no table file.
ghost use Rattle.std.specs.Prelude.{◌≡◌};
ghost use Rattle.fixed_angle.specs.declared.fault.TabFault.TheVariants.{Memory};

use std::alloc::{AllocError, AllocFailed};

/// The first thing that is wrong with a table file.
#[derive(Clone, Copy, Debug, PartialEq, Eq)]
pub enum TabFault {
    /// It has fewer than 8 bytes, does not begin with `PTAB`, or says that it has more than 1024 kinds.
    TabHead,
    /// Its length is not that of its head, its three tables and its kinds.
    TabLength,
    /// The kind with this place is the first whose number an earlier one has.
    TabActor(u32),
    /// There was not enough memory. Nothing is said of the file.
    Memory,
}

impl From<AllocError> for TabFault {
    ghost from_gives = { λ _ fault. fault ≡ Memory };

    fn from(_: AllocError) -> Self {
        TabFault::Memory
    }
}

impl<T: Drop> From<AllocFailed<T>> for TabFault {
    ghost from_gives = { λ _ fault. fault ≡ Memory };

    fn from(_: AllocFailed<T>) -> Self {
        TabFault::Memory
    }
}
