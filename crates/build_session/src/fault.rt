//! Why a script is not carried out to its end.

ghost use Rattle.std.specs.Prelude.{◌≡◌};
ghost use Rattle.build_session.specs.Runs.{refused_at};

use build_edits::EditFault;

/// Why a script is not carried out to its end.
#[derive(Clone, Copy, Debug, PartialEq, Eq)]
pub enum SessionFault {
    /// The command of this line is the first that is refused, and why. It is never want of memory.
    Edit(u32, EditFault),
    /// There was no memory.
    Memory,
}

/// The refusal of the command of a line.
pub fn refused_at(line: u32, fault: EditFault) -> SessionFault
    ensures { result ≡ refused_at line fault }
{
    match fault {
        EditFault::Memory => SessionFault::Memory,
        EditFault::Place(count) => SessionFault::Edit(line, EditFault::Place(count)),
        EditFault::Before => SessionFault::Edit(line, EditFault::Before),
        EditFault::TooLong => SessionFault::Edit(line, EditFault::TooLong),
    }
}
