// Where named files are taken from and put.
ghost use Rattle.std.specs.Prelude.{◌≡◌, ◌≢◌, ◌≤◌, List, ℕ, Option, Some, option_map, take, vec_len, IfSome, OnOk, IsErrOf};
ghost use Rattle.std.specs.FinMap as map;
ghost use Rattle.doom_edge.specs.declared.shelf.TakeFault.TheVariants as take_fault;
ghost use Rattle.doom_edge.specs.declared.shelf.PutFault.TheVariants as put_fault;
ghost use Rattle.doom_edge.specs.Devices.{Files, bound, but_for, IsUnheld};
ghost use Rattle.doom_edge.specs.Counts.{Rose};

use std::alloc::{AllocError, AllocFailed};
use thiserror::Error;

/// Why a file was not taken.
#[derive(Clone, Copy, Debug, PartialEq, Eq, Error)]
pub enum TakeFault {
    #[error("the file could not be read")]
    Failed,
    #[error("out of memory")]
    Memory,
}

impl From<AllocError> for TakeFault {
    ghost from_gives = { λ _ fault. fault ≡ take_fault.Memory };

    fn from(_: AllocError) -> Self {
        TakeFault::Memory
    }
}

impl<T: Drop> From<AllocFailed<T>> for TakeFault {
    ghost from_gives = { λ _ fault. fault ≡ take_fault.Memory };

    fn from(_: AllocFailed<T>) -> Self {
        TakeFault::Memory
    }
}

/// Why a file was not put.
#[derive(Clone, Copy, Debug, PartialEq, Eq, Error)]
pub enum PutFault {
    #[error("the file could not be written")]
    Failed,
    #[error("out of memory")]
    Memory,
}

impl From<AllocError> for PutFault {
    ghost from_gives = { λ _ fault. fault ≡ put_fault.Memory };

    fn from(_: AllocError) -> Self {
        PutFault::Memory
    }
}

impl<T: Drop> From<AllocFailed<T>> for PutFault {
    ghost from_gives = { λ _ fault. fault ≡ put_fault.Memory };

    fn from(_: AllocFailed<T>) -> Self {
        PutFault::Memory
    }
}

/// A place for named files.
pub trait Shelf {
    /// The bytes under each name that is held, where the shelf tells.
    ghost holds: { Self → Option Files };

    /// How often a take has failed. It never falls.
    ghost take_faults: { Self → ℕ };

    /// How often a put has failed. It never falls.
    ghost put_faults: { Self → ℕ };

    /// The shelf tells, and from here on only a take of a name that isn't held fails.
    ghost sure: { Self → Type 0 };

    /// Takes the first `most` bytes of the file `name`, or all of them where it is shorter, in place of
    /// what was in `into`. After a fault nothing is said of `into`.
    fn take(&mut self, name: &str, most: usize, into: &mut Vec<u8>) -> Result<(), TakeFault>
        ensures read { OnOk result (IfSome (holds self.old) (λ files. option_map (take most) (map.get files name.now) ≡ Some into.new.items)) }
        ensures short { OnOk result (vec_len into.new ≤ most) }
        ensures cause { IsErrOf result TakeFault.Failed → Rose (take_faults self.old) (take_faults self.new) }

        // After each answer.
        ensures holds { holds self.new ≡ holds self.old }
        ensures take_faults { take_faults self.old ≤ take_faults self.new }
        ensures put_faults { put_faults self.new ≡ put_faults self.old }

        // Where only a name that isn't held can fail.
        ensures stays_sure { sure self.old → sure self.new }
        ensures sure_fault { sure self.old → IsErrOf result TakeFault.Failed → IsUnheld name.now (holds self.old) }
        ensures sure_count { sure self.old → (IsErrOf result TakeFault.Failed → ⊥) → take_faults self.new ≡ take_faults self.old };

    /// Puts these bytes under `name`, in place of what was there.
    fn put(&mut self, name: &str, bytes: &[u8]) -> Result<(), PutFault>
        ensures put { OnOk result (holds self.new ≡ bound name.now bytes.now (holds self.old)) }
        ensures cause { IsErrOf result PutFault.Failed → Rose (put_faults self.old) (put_faults self.new) }
        // This name may then hold anything, or be gone.
        ensures others { IsErrOf result PutFault.Failed → but_for name.now (holds self.new) ≡ but_for name.now (holds self.old) }
        ensures memory { IsErrOf result PutFault.Memory → holds self.new ≡ holds self.old }

        // After each answer.
        ensures put_faults { put_faults self.old ≤ put_faults self.new }
        ensures take_faults { take_faults self.new ≡ take_faults self.old }

        // Where only a take of a name that isn't held can fail.
        ensures stays_sure { sure self.old → sure self.new }
        ensures sure_fault { sure self.old → IsErrOf result PutFault.Failed → ⊥ }
        ensures sure_count { sure self.old → put_faults self.new ≡ put_faults self.old };
}
