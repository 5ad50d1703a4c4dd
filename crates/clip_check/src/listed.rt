//! The special lines on which a box lies.
ghost use Rattle.std.specs.Prelude.{◌≡◌, ◌+◌, ◌<◌, ◌≤◌, ◌==◌, ◌++◌, ◌∷◌, [], length, slice_index};
ghost use Rattle.std.specs.List.{list_any};

use std::marker::Model;

/// How many lines are listed at most.
pub const MOST_LISTED: usize = 8;

/// Lines, in the order in which they were met: at most eight.
#[derive(Drop)]
pub struct Listed {
    lines: [u32; 8],
    count: usize,
}

impl Model for Listed {
    ghost use Rattle.std.specs.Prelude.{ℕ, ◌≤◌, List, take};

    ghost Value = { List ℕ };

    ghost view = { λ listed. take listed.count listed.lines };

    ghost invariant = { λ listed. listed.count ≤ 8 };
}

impl Listed {
    /// No line.
    pub fn new() -> Self
        ensures { result ≡ [] }
    {
        Listed {
            lines: [0; MOST_LISTED],
            count: 0,
        }
    }

    /// How many lines there are.
    pub fn len(&self) -> usize
        ensures len { result ≡ length self.now }
        ensures few { result ≤ 8 }
    {
        self.count
    }

    /// The line at a place of the list.
    pub fn get(&self, i: usize) -> u32
        requires { i < length self.now }
        ensures { result ≡ slice_index self.now i }
    {
        let _count = &self.count;
        self.lines[i]
    }

    /// Whether a line is listed.
    pub fn contains(&self, line: u32) -> bool
        ensures { result ≡ list_any (λ other. other == line) self.now }
    {
        self.lines[..self.count].contains(&line)
    }

    /// Adds a line, where there is room.
    pub fn push(&mut self, line: u32)
        requires { length self.old < 8 }
        ensures { self.new ≡ self.old ++ line ∷ [] }
    {
        self.lines[self.count] = line;
        self.count += 1;
    }
}
