// How a run of the program ends.
ghost use Rattle.std.specs.Prelude.{◌≡◌};
ghost use Rattle.dsda_cli.specs.Ending.{number_of};

use crate::fault::InputFault;

/// How a run ends.
#[derive(Debug, Drop)]
pub enum Status {
    /// The command was carried out.
    Done,
    /// An input has this fault.
    Refused(InputFault),
    /// The words are no command line.
    Usage,
    /// An input could not be read.
    ReadFault,
    /// The demo could not be put.
    WriteFault,
    /// The report, or the line of a refusal, could not be pushed.
    NoteFault,
    /// There was no memory.
    Memory,
}

impl Status {
    /// The number that the program ends with.
    pub fn number(&self) -> u8
        ensures { result ≡ number_of self.now }
    {
        match self {
            Status::Done => 0,
            Status::Refused(_) => 1,
            Status::Usage => 2,
            Status::ReadFault => 3,
            Status::WriteFault => 4,
            Status::NoteFault => 5,
            Status::Memory => 6,
        }
    }
}
