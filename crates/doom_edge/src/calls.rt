// The calls of one kind that a device in memory has had, and which of them are to fail.
ghost use Rattle.std.specs.Prelude.{◌≡◌, ◌≤◌, true};
ghost use Rattle.doom_edge.specs.Counts.{Rose};
ghost use Rattle.doom_edge.specs.Calls.{fails, counted};

use crate::counts::{add_fault, raise};
use std::marker::Model;

#[derive(Drop)]
pub(crate) struct Calls {
    failing: Vec<u64>,
    made: u64,
    faults: u64,
}

impl Model for Calls {
    ghost use Rattle.doom_edge.specs.Calls.{Calls};

    ghost Value = { Calls };

    ghost view = { λ calls. record { failing = calls.failing.items; made = calls.made; faults = calls.faults } };
}

impl Calls {
    pub(crate) fn new(failing: Vec<u64>) -> Calls
        ensures { result ≡ record { failing = failing.items; made = 0; faults = 0 } }
    {
        Calls {
            failing,
            made: 0,
            faults: 0,
        }
    }

    // Whether the next call is to fail.
    pub(crate) fn fails(&self) -> bool
        ensures { result ≡ fails self.now }
    {
        self.failing.contains(&self.made)
    }

    // Counts a call.
    pub(crate) fn count(&mut self, failed: bool)
        ensures counted { self.new ≡ counted self.old failed }
        ensures rose { failed ≡ true → Rose self.old.faults self.new.faults }
        ensures never_falls { self.old.faults ≤ self.new.faults }
    {
        self.made = raise(self.made, 1);
        if failed {
            self.faults = add_fault(self.faults);
        }
    }
}
