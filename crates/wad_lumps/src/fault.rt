//! Why a WAD file, or a map in it, is refused.

ghost use Rattle.std.specs.Prelude.{◌≡◌};
ghost use Rattle.wad_lumps.specs.declared.fault.WadFault.TheVariants.{Memory};

use std::alloc::{AllocError, AllocFailed};

/// Why a WAD file, or a map in it, is refused.
#[derive(Clone, Copy, Debug, PartialEq, Eq)]
pub enum WadFault {
    /// Fewer than twelve bytes, letters other than `IWAD` and `PWAD`, or a negative number in the
    /// head.
    WadHead,
    /// The directory does not lie in the file.
    WadDir,
    /// No entry has a name of the map.
    NoMap,
    /// This one of a map's ten lumps, from 1 to 10, is absent or does not lie in the file. It is
    /// the first.
    LumpRange(u32),
    /// No memory is left.
    Memory,
}

impl From<AllocError> for WadFault {
    ghost from_gives = { λ _ e. e ≡ Memory };

    fn from(_e: AllocError) -> WadFault {
        WadFault::Memory
    }
}

impl<T: Drop> From<AllocFailed<T>> for WadFault {
    ghost from_gives = { λ _ e. e ≡ Memory };

    fn from(_e: AllocFailed<T>) -> WadFault {
        WadFault::Memory
    }
}
