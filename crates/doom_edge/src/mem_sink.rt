// A sink in memory, for tests: which of its pushes fail is known.
ghost use Rattle.std.specs.Prelude.{◌≡◌, ◌≤◌, ◌/◌, ◌++◌, true, false, [], Some, length, OnOk, IsErrOf};
ghost use Rattle.doom_edge.specs.Counts.{Rose};
ghost use Rattle.doom_edge.specs.Calls.{fails, counted};
ghost use Rattle.doom_edge.specs.MemSink.{first_half, IsSure};

use crate::calls::Calls;
use crate::sink::{PushFault, Sink};
use std::alloc::Global;
use std::marker::Model;

/// A sink that keeps what it gets in memory. Pushes are numbered from 0. Those with listed numbers fail,
/// and append the first half of their bytes, rounded down.
#[derive(Drop)]
pub struct MemSink {
    bytes: Vec<u8>,
    pushes: Calls,
}

impl Model for MemSink {
    ghost use Rattle.doom_edge.specs.MemSink.{Got};

    ghost Value = { Got };

    ghost view = { λ sink. record { bytes = sink.bytes.items; pushes = sink.pushes } };
}

impl MemSink {
    /// An empty sink, whose pushes with listed numbers fail.
    pub fn new(alloc: Global, fail_pushes: Vec<u64>) -> MemSink
        ensures { result ≡ record { bytes = []; pushes = record { failing = fail_pushes.items; made = 0; faults = 0 } } }
    {
        MemSink {
            bytes: Vec::new(alloc),
            pushes: Calls::new(fail_pushes),
        }
    }

    /// The bytes so far.
    pub fn bytes(&self) -> &[u8]
        ensures { result.now ≡ self.now.bytes }
    {
        &self.bytes
    }
}

impl Sink for MemSink {
    ghost got = { λ sink. Some sink.bytes };

    ghost faults = { λ sink. sink.pushes.faults };

    ghost sure = { IsSure };

    fn push(&mut self, bytes: &[u8]) -> Result<(), PushFault>
        ensures ok { OnOk result (fails self.old.pushes ≡ false) }
        ensures failed { IsErrOf result PushFault.Failed → fails self.old.pushes ≡ true }
        ensures pushed { OnOk result (self.new ≡ record { bytes = self.old.bytes ++ bytes.now; pushes = counted self.old.pushes false }) }
        ensures half { IsErrOf result PushFault.Failed → self.new ≡ record { bytes = self.old.bytes ++ first_half bytes.now; pushes = counted self.old.pushes true } }
        ensures memory { IsErrOf result PushFault.Memory → self.new ≡ record { bytes = self.old.bytes; pushes = counted self.old.pushes false } }
        ensures cause { IsErrOf result PushFault.Failed → Rose self.old.pushes.faults self.new.pushes.faults }
        ensures faults { self.old.pushes.faults ≤ self.new.pushes.faults }
    {
        let failed = self.pushes.fails();
        let len = if failed { bytes.len() / 2 } else { bytes.len() };
        let pushed = self.bytes.extend_from_slice(&bytes[..len]);
        self.pushes.count(failed && pushed.is_ok());
        pushed?;
        if failed {
            return Err(PushFault::Failed);
        }
        Ok(())
    }
}
