//! Why a part of a tic ends early.
ghost use Rattle.std.specs.Prelude.{◌≡◌};
ghost use Rattle.cow_world.specs.declared.fault.PlayFault.TheVariants as fault;

use doom_edge::Memory;
use game_trait::Halt;
use std::alloc::{AllocError, AllocFailed};

/// A part of a tic ended early: the replay halts, or no memory was to be had. A world that was being written is
/// then in the midst of that part, and nothing is said of it.
#[derive(Clone, Copy, Debug, PartialEq, Eq)]
pub enum PlayFault {
    Halt(Halt),
    Memory,
}

impl From<Memory> for PlayFault {
    ghost from_gives = { λ _ e. e ≡ fault.Memory };

    fn from(_: Memory) -> Self {
        PlayFault::Memory
    }
}

impl From<AllocError> for PlayFault {
    ghost from_gives = { λ _ e. e ≡ fault.Memory };

    fn from(_: AllocError) -> Self {
        PlayFault::Memory
    }
}

impl<T: Drop> From<AllocFailed<T>> for PlayFault {
    ghost from_gives = { λ _ e. e ≡ fault.Memory };

    fn from(_: AllocFailed<T>) -> Self {
        PlayFault::Memory
    }
}
