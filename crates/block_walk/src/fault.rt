//! Why a trace has no answer.
ghost use Rattle.std.specs.Prelude.{◌≡◌};
ghost use Rattle.block_walk.specs.declared.fault.TraceFault.TheVariants.{Memory};

use std::alloc::{AllocError, AllocFailed};

#[derive(Clone, Copy, Debug, PartialEq, Eq)]
pub enum TraceFault {
    /// The trace meets more than 128 lines.
    Intercepts,
    /// There was not enough memory. Nothing is said of the trace.
    Memory,
}

impl From<AllocError> for TraceFault {
    ghost from_gives = { λ _ fault. fault ≡ Memory };

    fn from(_: AllocError) -> Self {
        TraceFault::Memory
    }
}

impl<T: Drop> From<AllocFailed<T>> for TraceFault {
    ghost from_gives = { λ _ fault. fault ≡ Memory };

    fn from(_: AllocFailed<T>) -> Self {
        TraceFault::Memory
    }
}
