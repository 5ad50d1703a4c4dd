// Where the report goes.
ghost use Rattle.std.specs.Prelude.{◌≡◌, ◌≤◌, List, ℕ, Option, OnOk, IsErrOf};
ghost use Rattle.doom_edge.specs.declared.sink.PushFault.TheVariants as push_fault;
ghost use Rattle.doom_edge.specs.Devices.{grown, GrewByPrefix};
ghost use Rattle.doom_edge.specs.Counts.{Rose};

use std::alloc::{AllocError, AllocFailed};
use thiserror::Error;

/// Why bytes were not pushed, or not all of them.
#[derive(Clone, Copy, Debug, PartialEq, Eq, Error)]
pub enum PushFault {
    #[error("the output could not be written")]
    Failed,
    #[error("out of memory")]
    Memory,
}

impl From<AllocError> for PushFault {
    ghost from_gives = { λ _ fault. fault ≡ push_fault.Memory };

    fn from(_: AllocError) -> Self {
        PushFault::Memory
    }
}

impl<T: Drop> From<AllocFailed<T>> for PushFault {
    ghost from_gives = { λ _ fault. fault ≡ push_fault.Memory };

    fn from(_: AllocFailed<T>) -> Self {
        PushFault::Memory
    }
}

/// A place that takes bytes, one after the other.
pub trait Sink {
    /// The bytes that it got so far, where the sink tells.
    ghost got: { Self → Option (List ℕ) };

    /// How often a push has failed. It never falls.
    ghost faults: { Self → ℕ };

    /// From here on no push fails.
    ghost sure: { Self → Type 0 };

    /// Appends these bytes.
    fn push(&mut self, bytes: &[u8]) -> Result<(), PushFault>
        ensures pushed { OnOk result (got self.new ≡ grown bytes.now (got self.old)) }
        ensures cause { IsErrOf result PushFault.Failed → Rose (faults self.old) (faults self.new) }
        ensures prefix { IsErrOf result PushFault.Failed → GrewByPrefix bytes.now (got self.old) (got self.new) }
        ensures memory { IsErrOf result PushFault.Memory → got self.new ≡ got self.old }

        // After each answer.
        ensures faults { faults self.old ≤ faults self.new }

        // Where no push can fail.
        ensures stays_sure { sure self.old → sure self.new }
        ensures sure_fault { sure self.old → IsErrOf result PushFault.Failed → ⊥ }
        ensures sure_count { sure self.old → faults self.new ≡ faults self.old };
}
