ghost use Rattle.std.specs.Prelude.{◌≡◌, ℕ, List, [], ◌∷◌, ◌++◌, length, map, string_bytes, OnOk, OnErr};
ghost use Rattle.dsda_cli.specs.Commands.{word_at};

use doom_edge::Memory;
use std::alloc::Global;
use std::marker::Model;

/// The words of a command line after the program's name, seen as the list of their texts.
#[derive(Drop)]
pub struct Words {
    alloc: Global,
    texts: Vec<String>,
}

impl Model for Words {
    ghost Value = { List (List ℕ) };

    ghost view = { λ words. map string_bytes words.texts.items };
}

impl Words {
    /// No words.
    pub fn new(alloc: Global) -> Words
        ensures { result ≡ [] }
    {
        Words {
            alloc,
            texts: Vec::new(alloc),
        }
    }

    /// Appends a word.
    pub fn push(&mut self, word: &str) -> Result<(), Memory>
        ensures ok { OnOk result (self.new ≡ self.old ++ word.now ∷ []) }
        ensures err { OnErr result (self.new ≡ self.old) }
    {
        let text = String::from_str(self.alloc, word).map_err(|_| Memory)?;
        self.texts.push(text).map_err(|_| Memory)
    }

    /// The number of words.
    pub fn len(&self) -> usize
        ensures { result ≡ length self.now }
    {
        self.texts.len()
    }

    /// The word at a place, the first at 0, or no text where there is no such word.
    pub fn word(&self, place: usize) -> &str
        ensures { result.now ≡ word_at self.now place }
    {
        match self.texts.get(place) {
            Some(text) => text.as_str(),
            None => "",
        }
    }
}
