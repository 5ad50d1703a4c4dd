ghost use Rattle.std.specs.Prelude.{◌≡◌};

use doom_edge::Memory;
use std::alloc::{AllocError, AllocFailed};

/// Why an edit was refused. What stood before still stands.
#[derive(Clone, Copy, Debug, PartialEq, Eq)]
pub enum EditFault {
    /// There is no such place: so many tics stand.
    Place(u32),
    /// No tic stands before the cursor.
    Before,
    /// More tics would stand than a demo may have.
    TooLong,
    /// There was no memory.
    Memory,
}

impl From<AllocError> for EditFault {
    ghost use Rattle.build_edits.specs.declared.fault.EditFault.TheVariants.{Memory};

    ghost from_gives = { λ _ fault. fault ≡ Memory };

    fn from(_error: AllocError) -> Self {
        EditFault::Memory
    }
}

impl<T: Drop> From<AllocFailed<T>> for EditFault {
    ghost use Rattle.build_edits.specs.declared.fault.EditFault.TheVariants.{Memory};

    ghost from_gives = { λ _ fault. fault ≡ Memory };

    fn from(_error: AllocFailed<T>) -> Self {
        EditFault::Memory
    }
}

impl From<Memory> for EditFault {
    ghost use Rattle.build_edits.specs.declared.fault.EditFault.TheVariants.{Memory as NoMemory};

    ghost from_gives = { λ _ fault. fault ≡ NoMemory };

    fn from(_error: Memory) -> Self {
        EditFault::Memory
    }
}
