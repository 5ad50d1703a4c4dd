// Real output. What it got is told to nobody: this is the trusted edge.
ghost use Rattle.std.specs.Prelude.{◌≡◌, None};

use crate::counts::add_fault;
use crate::interrupts::write_whole;
use crate::reason::failure_of;
use crate::sink::{PushFault, Sink};
use std::alloc::Global;
use std::io;
use std::io::Error;
use std::marker::Model;

/// Standard output.
#[derive(Drop)]
pub struct OutSink<P> {
    output: P,
    faults: u64,
    failure: Option<Error>,
}

impl<P> Model for OutSink<P> {
    ghost use Rattle.std.specs.Prelude.{ℕ};

    ghost Value = { ℕ };

    ghost view = { λ sink. sink.faults };
}

impl<P: Print> OutSink<P> {
    /// The sink of the runtime's output.
    pub fn new(output: P) -> OutSink<P>
        ensures { result ≡ 0 }
    {
        OutSink {
            output,
            faults: 0,
            failure: None,
        }
    }

    /// What failed last, as `cannot write WHAT: REASON` with the system's reason; empty where nothing did, or where there
    /// is no memory for it.
    pub fn failure(&self, alloc: Global, what: &str) -> String {
        match &self.failure {
            Some(error) => failure_of(alloc, "write", what, error),
            None => String::new(alloc),
        }
    }
}

impl<P: Print> Sink for OutSink<P> {
    ghost got = { λ _. None };

    ghost faults = { λ sink. sink };

    ghost sure = { λ _. ⊥ };

    fn push(&mut self, bytes: &[u8]) -> Result<(), PushFault> {
        let mut output = io::writer(&self.output);
        match write_whole(&mut output, bytes) {
            Ok(()) => Ok(()),
            Err(error) => {
                self.faults = add_fault(self.faults);
                self.failure = Some(error);
                Err(PushFault::Failed)
            }
        }
    }
}
