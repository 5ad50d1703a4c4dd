ghost use Rattle.std.specs.Prelude.{◌≡◌};

use std::alloc::{AllocError, AllocFailed};

/// There was no memory.
#[derive(Clone, Copy, Debug, PartialEq, Eq)]
pub struct Memory;

/// Why a text is no demo: the first fault from the left, or that there was no memory to read it.
#[derive(Clone, Copy, Debug, PartialEq, Eq)]
pub enum DemoFault {
    /// The first byte is this one, and neither 109 nor 111.
    DemoVersion(u8),
    /// The header's byte at this place breaks its rule.
    DemoHead(u8),
    /// The text ends before the demo does; it has this many bytes.
    DemoCut(usize),
    /// After 1,000,000 tics the demo goes on.
    DemoLong,
    /// There was no memory.
    Memory,
}

impl From<AllocError> for Memory {
    fn from(_error: AllocError) -> Self {
        Memory
    }
}

impl<T: Drop> From<AllocFailed<T>> for Memory {
    fn from(_error: AllocFailed<T>) -> Self {
        Memory
    }
}

impl From<AllocError> for DemoFault {
    ghost use Rattle.lmp_codec.specs.declared.fault.DemoFault.TheVariants.{Memory as DemoMemory};

    ghost from_gives = { λ _ fault. fault ≡ DemoMemory };

    fn from(_error: AllocError) -> Self {
        DemoFault::Memory
    }
}

impl<T: Drop> From<AllocFailed<T>> for DemoFault {
    ghost use Rattle.lmp_codec.specs.declared.fault.DemoFault.TheVariants.{Memory as DemoMemory};

    ghost from_gives = { λ _ fault. fault ≡ DemoMemory };

    fn from(_error: AllocFailed<T>) -> Self {
        DemoFault::Memory
    }
}
