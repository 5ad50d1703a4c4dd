// The counter of the steps that a call makes.
ghost use Rattle.std.specs.Prelude.{◌≡◌, ◌+◌, ◌≤◌};
ghost use Rattle.doom_edge.specs.Counts.{raised};

use crate::counts::raise;
use std::marker::Model;

/// How many tic steps and how many page steps were made. A tic step is one tic of a game played in a world.
/// A page step is one item copied, or one page named or made shared. A count that has reached 2^64 - 1
/// stays there.
#[derive(Debug, Drop)]
pub struct Steps {
    tics: u64,
    pages: u64,
}

impl Model for Steps {
    ghost use Rattle.doom_edge.specs.Counts.{Counts};

    ghost Value = { Counts };

    ghost view = { λ steps. record { tics = steps.tics; pages = steps.pages } };
}

impl Steps {
    /// A counter with both counts 0.
    pub fn new() -> Steps
        ensures { result ≡ record { tics = 0; pages = 0 } }
    {
        Steps { tics: 0, pages: 0 }
    }

    /// Counts one tic step.
    pub fn tic(&mut self)
        ensures raised { self.new ≡ record self.old { tics = raised self.old.tics 1 } }
        ensures most { self.new.tics ≤ self.old.tics + 1 }
        ensures least { self.old.tics ≤ self.new.tics }
    {
        self.tics = raise(self.tics, 1);
    }

    /// Counts one page step.
    pub fn page(&mut self)
        ensures raised { self.new ≡ record self.old { pages = raised self.old.pages 1 } }
        ensures most { self.new.pages ≤ self.old.pages + 1 }
        ensures least { self.old.pages ≤ self.new.pages }
    {
        self.pages = raise(self.pages, 1);
    }

    /// Adds what another counter has counted, as that of a worker.
    pub fn add(&mut self, other: Steps)
        ensures tics { self.new.tics ≡ raised self.old.tics other.tics }
        ensures pages { self.new.pages ≡ raised self.old.pages other.pages }
        ensures most_tics { self.new.tics ≤ self.old.tics + other.tics }
        ensures most_pages { self.new.pages ≤ self.old.pages + other.pages }
    {
        self.tics = raise(self.tics, other.tics);
        self.pages = raise(self.pages, other.pages);
    }

    /// The tic steps so far.
    pub fn tics(&self) -> u64
        ensures { result ≡ self.now.tics }
    {
        self.tics
    }

    /// The page steps so far.
    pub fn pages(&self) -> u64
        ensures { result ≡ self.now.pages }
    {
        self.pages
    }
}
