ghost use Rattle.std.specs.Prelude.{◌≡◌, ◌<◌, ◌↔◌, [], length, slice_get, slice_index_or, Some, IsTrue};
ghost use Rattle.std.specs.Option.{option_map};
ghost use Rattle.build_script.specs.declared.commands.Entry.{Entry as EntryValue};

use brute_ranges::Space;
use brute_targets::{Want, Wants};
use lmp_codec::Tic;
use std::marker::Model;

/// One command of a script. The tics that it edits have a cursor between 0 and their number.
#[derive(Debug, Drop)]
pub enum Command {
    /// The cursor becomes this number of tics, 0 to 1,000,000.
    Seek(u32),
    /// The tic at the cursor becomes this one, or it is added where the cursor is at the end.
    Put(Tic),
    /// This tic comes in front of the one at the cursor.
    Insert(Tic),
    /// The tic at the cursor goes.
    Delete,
    /// All tics from the cursor on go.
    Cut,
    /// The tic before the cursor is put this many times, 1 to 1,000,000.
    Repeat(u32),
    /// The world at the cursor is shown: the player's place, momentum and angle, and the random index.
    Show,
    /// This sector of the world at the cursor is shown.
    ShowSector(u16),
    /// The keys held in the world at the cursor are shown.
    ShowKeys,
    /// The player's body in the world at the cursor is shown.
    ShowHealth,
    /// A target of the search that a later `Go` carries out. It stands here so that its name is judged at its line, and
    /// does nothing.
    Want(Want),
    /// The first of these sequences that meets these targets, played on from the cursor, comes in place of the tics
    /// from the cursor on.
    Go(Space, Wants),
}

/// A command, and the number of its line, counted from 1.
#[derive(Debug, Drop)]
pub struct Entry {
    pub line: u32,
    pub command: Command,
}

/// The commands of a text in their order, each with its line: contracts see the list of the entries.
#[derive(Debug, Drop)]
pub struct Script {
    entries: Vec<Entry>,
}

impl Model for Script {
    ghost use Rattle.std.specs.Prelude.{List};
    ghost use Rattle.build_script.specs.declared.commands.Entry.{Entry};

    ghost Value = { List Entry };

    ghost view = { λ script. script.entries.items };
}

impl Script {
    pub(crate) fn from_entries(entries: Vec<Entry>) -> Self
        ensures { result ≡ entries.items }
    {
        Script { entries }
    }

    /// How many commands there are.
    pub fn len(&self) -> usize
        ensures { result ≡ length self.now }
    {
        self.entries.len()
    }

    /// Whether there is no command.
    pub fn is_empty(&self) -> bool
        ensures { IsTrue result ↔ (self.now ≡ []) }
    {
        self.entries.is_empty()
    }

    /// The number of the line of the command at this place.
    pub fn line(&self, i: usize) -> u32
        requires { i < length self.now }
        ensures there { option_map (λ entry. entry.line) (slice_get self.now i) ≡ Some result }
        ensures value { (other : EntryValue) → result ≡ (slice_index_or self.now i other).line }
    {
        self.entries[i].line
    }

    /// The command at this place.
    pub fn command(&self, i: usize) -> &Command
        requires { i < length self.now }
        ensures there { option_map (λ entry. entry.command) (slice_get self.now i) ≡ Some result.now }
        ensures value { (other : EntryValue) → result.now ≡ (slice_index_or self.now i other).command }
    {
        &self.entries[i].command
    }
}
