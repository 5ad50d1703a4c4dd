//! Why a level can't be started.
ghost use Rattle.std.specs.Prelude.{◌≡◌};
ghost use Rattle.level_start.specs.declared.fault.StartFault.TheVariants as fault;

use doom_edge::Memory as NoMemory;
use std::alloc::{AllocError, AllocFailed};

/// The first thing that is wrong with a level's things, in their order.
#[derive(Clone, Copy, Debug, PartialEq, Eq)]
pub enum StartFault {
    /// No thing is the start of the first player.
    NoStart,
    /// A second thing is the start of the first player.
    Voodoo,
    /// The play tables don't have the kind of a thing: the thing's place, and the number of its kind.
    ThingUnknown(u32, u16),
    /// The thing at this place is of a kind that a map of the form `ExMy` can't have.
    Doom2Thing(u32),
    /// The thing at this place shoots cubes that become monsters.
    Spitter(u32),
    /// There was not enough memory. Nothing is said of the level.
    Memory,
}

impl From<NoMemory> for StartFault {
    ghost from_gives = { λ _ e. e ≡ fault.Memory };

    fn from(_: NoMemory) -> Self {
        StartFault::Memory
    }
}

impl From<AllocError> for StartFault {
    ghost from_gives = { λ _ e. e ≡ fault.Memory };

    fn from(_: AllocError) -> Self {
        StartFault::Memory
    }
}

impl<T: Drop> From<AllocFailed<T>> for StartFault {
    ghost from_gives = { λ _ e. e ≡ fault.Memory };

    fn from(_: AllocFailed<T>) -> Self {
        StartFault::Memory
    }
}
