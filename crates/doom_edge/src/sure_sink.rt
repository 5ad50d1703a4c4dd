// A sink in memory that never fails, for tests.
ghost use Rattle.std.specs.Prelude.{◌≡◌, ◌++◌, [], Some, OnOk, OnErr, IsErrOf};

use crate::sink::{PushFault, Sink};
use std::alloc::Global;
use std::marker::Model;

/// A sink that keeps what it gets in memory. No push fails but for want of memory.
#[derive(Drop)]
pub struct SureSink {
    bytes: Vec<u8>,
}

impl Model for SureSink {
    ghost use Rattle.std.specs.Prelude.{List, ℕ};

    ghost Value = { List ℕ };

    ghost view = { λ sink. sink.bytes.items };
}

impl SureSink {
    /// An empty sink.
    pub fn new(alloc: Global) -> SureSink
        ensures { result ≡ [] }
    {
        SureSink {
            bytes: Vec::new(alloc),
        }
    }

    /// The bytes so far.
    pub fn bytes(&self) -> &[u8]
        ensures { result.now ≡ self.now }
    {
        &self.bytes
    }
}

impl Sink for SureSink {
    ghost got = { λ sink. Some sink };

    ghost faults = { λ _. 0 };

    ghost sure = { λ _. Unit {0} };

    fn push(&mut self, bytes: &[u8]) -> Result<(), PushFault>
        ensures pushed { OnOk result (self.new ≡ self.old ++ bytes.now) }
        ensures err { OnErr result (self.new ≡ self.old) }
        ensures sure { IsErrOf result PushFault.Failed → ⊥ }
    {
        self.bytes.extend_from_slice(bytes)?;
        Ok(())
    }
}
