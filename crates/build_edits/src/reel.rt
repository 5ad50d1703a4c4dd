ghost use Rattle.std.specs.Prelude.{◌≡◌, ◌+◌, ◌≤◌, ◌++◌, ◌↔◌, [], length, drop, slice_get, IsTrue, IfOk, OnOk, OnErr, Err};
ghost use Rattle.lmp_codec.specs.Demo.{most_tics};
ghost use Rattle.build_edits.specs.Parts.{all_tics};
ghost use Rattle.build_edits.specs.Edits.{Edits, MayEdit, seek_outcome, put_outcome, insert_outcome, delete_outcome, cut_outcome, repeat_outcome, accept_outcome};

use crate::fault::EditFault;
use crate::list::TicList;
use doom_edge::Memory;
use lmp_codec::{MOST_TICS, Tic};
use std::marker::Model;

/// The tics of a demo that is built, and a cursor: seen as the tics before the cursor and those from it on.
///
/// It has at most as many tics as a demo may have. Each edit does what its command says, or is refused and
/// changes nothing. A move of the cursor costs nothing, and an edit what it puts or takes and a block of tics,
/// wherever the cursor stands.
#[derive(Drop)]
pub struct Tape {
    pub(crate) tics: TicList,
    pub(crate) cursor: usize,
}

impl Model for Tape {
    ghost use Rattle.build_edits.specs.Parts.{Parts, parts_at};
    ghost use Rattle.build_edits.specs.Kept.{IsTape};

    ghost Value = { Parts };

    ghost view = { λ t. parts_at t.tics.tics t.cursor };

    ghost invariant = { λ t. IsTape t.tics t.cursor };
}

impl Tape {
    /// A tape of these tics, with the cursor at its start.
    pub fn new(tics: Vec<Tic>) -> Self
        requires { length tics.items ≤ most_tics }
        ensures { result ≡ record { before = []; after = tics.items } }
    {
        Tape {
            tics: TicList::new(tics),
            cursor: 0,
        }
    }

    /// The tic at a place, if there is one.
    pub fn tic(&self, place: u32) -> Option<Tic>
        ensures tic { result ≡ slice_get (all_tics self.now) place }
    {
        let place = place as usize;
        if place < self.len() {
            return Some(self.tics.tic(place));
        }
        None
    }

    /// How many tics there are.
    pub fn len(&self) -> usize
        ensures len { result ≡ length (all_tics self.now) }
        ensures within { result ≤ most_tics }
    {
        self.tics.len()
    }

    /// Whether there is no tic.
    pub fn is_empty(&self) -> bool
        ensures { IsTrue result ↔ (length (all_tics self.now) ≡ 0) }
    {
        self.len() == 0
    }

    /// All the tics, in order, as the vector that holds them.
    pub fn into_tics(self) -> Result<Vec<Tic>, Memory>
        ensures all { IfOk result (λ tics. tics.items ≡ all_tics self) }
        ensures within { IfOk result (λ tics. length tics.items ≤ most_tics) }
    {
        let Tape { tics, cursor: _ } = self;
        tics.into_tics()
    }

    /// How many tics stand before the cursor.
    pub fn cursor(&self) -> u32
        ensures value { result ≡ length self.now.before }
        ensures within { length (all_tics self.now) ≤ most_tics }
    {
        self.cursor as u32
    }

    /// Moves the cursor to this place. Refused with `Place` and the number of tics where that is less.
    pub fn seek(&mut self, place: u32) -> Result<(), EditFault>
        ensures edits { Edits result self.old self.new (seek_outcome place self.old) }
    {
        let len = self.len();
        let place = place as usize;
        if place > len {
            return Err(EditFault::Place(len as u32));
        }
        self.cursor = place;
        Ok(())
    }

    /// Puts these tics in place of so many from the cursor on, and moves the cursor behind them.
    fn put_over(&mut self, gone: usize, tics: &[Tic]) -> Result<(), EditFault>
        requires there { gone ≤ length self.old.after }
        requires room { length (all_tics self.old) + length tics.now ≤ most_tics + gone }
        ensures ok { OnOk result (self.new ≡ record { before = self.old.before ++ tics.now; after = drop gone self.old.after }) }
        ensures err { OnErr result (self.new ≡ self.old) }
        ensures memory { OnErr result (result ≡ Err EditFault.Memory) }
    {
        let behind = self.cursor + tics.len();
        self.tics.insert(self.cursor, tics)?;
        self.tics.erase(behind, behind + gone);
        self.cursor = behind;
        Ok(())
    }

    /// Writes the tic over the one at the cursor, or appends it at the end, and moves the cursor behind it.
    /// Refused with `TooLong` where it would be one tic too many.
    pub fn put(&mut self, tic: Tic) -> Result<(), EditFault>
        ensures edits { MayEdit result self.old self.new (put_outcome tic self.old) }
    {
        if self.cursor == self.len() {
            return self.insert(tic);
        }
        self.put_over(1, &[tic])
    }

    /// Inserts the tic at the cursor, and moves the cursor behind it. Refused with `TooLong` where it would
    /// be one tic too many.
    pub fn insert(&mut self, tic: Tic) -> Result<(), EditFault>
        ensures edits { MayEdit result self.old self.new (insert_outcome tic self.old) }
    {
        if self.len() == MOST_TICS {
            return Err(EditFault::TooLong);
        }
        self.put_over(0, &[tic])
    }

    /// Removes the tic at the cursor. Refused with `Place` and the number of tics where the cursor is at the
    /// end.
    pub fn delete(&mut self) -> Result<(), EditFault>
        ensures edits { Edits result self.old self.new (delete_outcome self.old) }
    {
        let len = self.len();
        if self.cursor == len {
            return Err(EditFault::Place(len as u32));
        }
        self.tics.erase(self.cursor, self.cursor + 1);
        Ok(())
    }

    /// Removes all tics from the cursor on. It is never refused.
    pub fn cut(&mut self) -> Result<(), EditFault>
        ensures edits { Edits result self.old self.new (cut_outcome self.old) }
    {
        let len = self.len();
        self.tics.erase(self.cursor, len);
        Ok(())
    }

    /// Puts the tic before the cursor so many times more. Refused with `Before` where there is none, and with
    /// `TooLong` where that would be too many tics.
    pub fn repeat(&mut self, count: u32) -> Result<(), EditFault>
        ensures edits { MayEdit result self.old self.new (repeat_outcome count self.old) }
    {
        let (place, count) = (self.cursor, count as usize);
        if place == 0 {
            return Err(EditFault::Before);
        }
        if count > MOST_TICS - place {
            return Err(EditFault::TooLong);
        }
        let copies = self.tics.copies(place - 1, count)?;
        let over = count.min(self.len() - place);
        self.put_over(over, &copies)
    }

    /// Puts these tics in place of all tics from the cursor on, and moves the cursor to the end. Refused with
    /// `TooLong` where that would be too many tics.
    pub fn accept(&mut self, tics: &[Tic]) -> Result<(), EditFault>
        ensures edits { MayEdit result self.old self.new (accept_outcome tics.now self.old) }
    {
        if tics.len() > MOST_TICS - self.cursor {
            return Err(EditFault::TooLong);
        }
        self.put_over(self.len() - self.cursor, tics)
    }
}
