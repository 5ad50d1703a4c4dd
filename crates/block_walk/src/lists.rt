//! Which lists were walked, so that blocks which share a list are walked once.
ghost use Rattle.std.specs.Prelude.{◌≡◌, ◌+◌, ◌<◌, ◌==◌, ◌++◌, ◌∷◌, [], length, if◌then◌else◌, nat_lt};
ghost use Rattle.std.specs.List.{list_any};

use std::marker::Model;

/// How many lists are kept in mind: as many as a trace may visit.
const MOST: usize = 64;

/// The places of lists that were walked, up to 64 of them.
#[derive(Drop)]
pub struct Walked {
    places: [u32; 64],
    count: usize,
}

impl Model for Walked {
    ghost use Rattle.std.specs.Prelude.{ℕ, ◌≤◌, List, take};

    ghost Value = { List ℕ };

    ghost view = { λ walked. take walked.count walked.places };

    ghost invariant = { λ walked. walked.count ≤ 64 };
}

impl Walked {
    /// No list was walked.
    pub fn new() -> Self
        ensures { result ≡ [] }
    {
        Walked {
            places: [0; MOST],
            count: 0,
        }
    }

    /// Whether the list at this place was walked, so far as is kept in mind.
    pub fn contains(&self, place: u32) -> bool
        ensures { result ≡ list_any (λ walked. walked == place) self.now }
    {
        self.places[..self.count].contains(&place)
    }

    /// Keeps in mind that the list at this place was walked, while there is room.
    pub fn add(&mut self, place: u32)
        ensures { self.new ≡ (if nat_lt (length self.old) 64 then self.old ++ place ∷ [] else self.old) }
    {
        if self.count < MOST {
            self.places[self.count] = place;
            self.count += 1;
        }
    }
}
