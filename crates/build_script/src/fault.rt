use std::alloc::{AllocError, AllocFailed};

/// Why a line of a script is refused.
#[derive(Clone, Copy, Debug, PartialEq, Eq)]
pub enum Kind {
    /// A word that isn't known at its place, or one too many.
    Word,
    /// A word that isn't spelled as a number.
    Number,
    /// A number out of its bounds, an empty range, a range with more turns than a circle has, or a 17th target.
    Range,
    /// Too few words, no search that this line belongs to, or no end of the search that it opens.
    Missing,
    /// A search of more than 2^40 sequences.
    Space,
}

/// Why there is no script: the first faulty line of the text, counted from 1, or want of memory.
#[derive(Clone, Copy, Debug, PartialEq, Eq)]
pub enum ScriptFault {
    /// This line is the first faulty one, and why.
    Line(u32, Kind),
    /// There was no memory, or the text has more lines than a `u32` counts.
    Memory,
}

impl From<AllocError> for ScriptFault {
    ghost use Rattle.std.specs.Prelude.{◌≡◌};
    ghost use Rattle.build_script.specs.declared.fault.ScriptFault.TheVariants.{Memory};

    ghost from_gives = { λ _ fault. fault ≡ Memory };

    fn from(_error: AllocError) -> Self {
        ScriptFault::Memory
    }
}

impl<T: Drop> From<AllocFailed<T>> for ScriptFault {
    ghost use Rattle.std.specs.Prelude.{◌≡◌};
    ghost use Rattle.build_script.specs.declared.fault.ScriptFault.TheVariants.{Memory};

    ghost from_gives = { λ _ fault. fault ≡ Memory };

    fn from(_error: AllocFailed<T>) -> Self {
        ScriptFault::Memory
    }
}
