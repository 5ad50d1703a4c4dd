ghost use Rattle.std.specs.Prelude.{◌≡◌};

use crate::head::Header;
use crate::input::Tic;
use std::marker::Model;

/// A list of tics. Neither to make one nor to take it apart needs memory.
#[derive(Debug, Drop)]
pub struct Tics {
    tics: Vec<Tic>,
}

impl Model for Tics {
    ghost use Rattle.std.specs.Prelude.{List};
    ghost use Rattle.lmp_codec.specs.declared.input.Tic.{Tic};

    ghost Value = { List Tic };

    ghost view = { λ t. t.tics.items };
}

impl Tics {
    /// The tics of a vector.
    pub fn from_list(tics: Vec<Tic>) -> Self
        ensures { result ≡ tics.items }
    {
        Tics { tics }
    }

    /// The tics, in order.
    pub fn as_list(&self) -> &[Tic]
        ensures { result.now ≡ self.now }
    {
        &self.tics
    }

    /// The tics, as the vector that holds them.
    pub fn into_list(self) -> Vec<Tic>
        ensures { result.items ≡ self }
    {
        self.tics
    }
}

/// What is read from a demo: its header and its tics. What follows the end byte is not kept.
#[derive(Debug, Drop)]
pub struct Demo {
    pub header: Header,
    pub tics: Tics,
}
