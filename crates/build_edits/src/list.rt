ghost use Rattle.std.specs.Prelude.{◌≡◌, ◌+◌, ◌<◌, ◌≤◌, [], length, take, slice_get, Some, IfOk, OnOk, OnErr};
ghost use Rattle.std.specs.List.{splice};
ghost use Rattle.build_edits.specs.Edits.{copies};
ghost use Rattle.build_edits.specs.Kept.{most_kept};

use crate::blocks::LONG_BLOCK;
use crate::{blocks, pieces};
use doom_edge::Memory;
use lmp_codec::Tic;
use std::marker::Model;

/// A list of tics, in which an edit costs no more at one place than at another: seen as the tics, and how many of
/// them stand in one piece.
///
/// Those are its front, and the others stand in blocks behind it. An edit in the front, but for its end, first makes
/// a block of what stands behind the place.
#[derive(Drop)]
pub struct TicList {
    front: Vec<Tic>,
    blocks: Vec<Vec<Tic>>,
    // How many tics stand in the blocks.
    behind: usize,
}

impl Model for TicList {
    ghost use Rattle.std.specs.Prelude.{◌≡◌, ◌+◌, ◌≤◌, ◌++◌, length};
    ghost use Rattle.build_edits.specs.Kept.{Kept, joined, most_kept};

    ghost Value = { Kept };

    ghost view = { λ t. record { tics = t.front.items ++ joined t.blocks.items; front = length t.front.items } };

    ghost invariant = { λ t. (t.behind ≡ length (joined t.blocks.items)) × (length t.front.items + t.behind ≤ most_kept) };
}

impl TicList {
    /// The list of these tics, in one piece.
    pub fn new(tics: Vec<Tic>) -> TicList
        requires { length tics.items ≤ most_kept }
        ensures tics { result.tics ≡ tics.items }
    {
        let blocks = Vec::new(*tics.allocator());
        TicList {
            front: tics,
            blocks,
            behind: 0,
        }
    }

    /// How many tics there are.
    pub fn len(&self) -> usize
        ensures len { result ≡ length self.now.tics }
    {
        self.front.len() + self.behind
    }

    /// The tic at a place.
    pub fn tic(&self, place: usize) -> Tic
        requires there { place < length self.now.tics }
        ensures tic { slice_get self.now.tics place ≡ Some result }
    {
        if place < self.front.len() {
            return self.front[place];
        }
        blocks::tic_at(&self.blocks, place - self.front.len())
    }

    /// So many copies of the tic at a place.
    pub fn copies(&self, place: usize, count: usize) -> Result<Vec<Tic>, Memory>
        requires there { place < length self.now.tics }
        ensures copies { IfOk result (λ tics. tics.items ≡ copies count (slice_get self.now.tics place)) }
    {
        let mut copies = Vec::new(*self.front.allocator());
        copies.resize(count, self.tic(place))?;
        Ok(copies)
    }

    /// Puts these tics in front of the one at a place, or at the end.
    pub fn insert(&mut self, place: usize, others: &[Tic]) -> Result<(), Memory>
        requires inside { place ≤ length self.old.tics }
        requires room { length self.old.tics + length others.now ≤ most_kept }
        ensures ok { OnOk result (self.new.tics ≡ splice self.old.tics place place others.now) }
        ensures err { OnErr result (self.new.tics ≡ self.old.tics) }
    {
        self.open(place);
        if place <= self.front.len() {
            return pieces::insert(&mut self.front, place, others);
        }
        blocks::insert(&mut self.blocks, place - self.front.len(), others)?;
        self.behind += others.len();
        Ok(())
    }

    /// Removes the tics from one place to another.
    pub fn erase(&mut self, from: usize, to: usize)
        requires order { from ≤ to }
        requires inside { to ≤ length self.old.tics }
        ensures erased { self.new.tics ≡ splice self.old.tics from to [] }
    {
        self.open(from);
        let front = self.front.len();
        let (start, end) = (from.max(front), to.max(front));
        blocks::erase(&mut self.blocks, start - front, end - front);
        self.behind -= end - start;
        pieces::erase(&mut self.front, from.min(front), to.min(front));
    }

    /// Where many tics of the front stand behind a place, makes a block of them, if there is memory.
    fn open(&mut self, place: usize)
        ensures same { self.new.tics ≡ self.old.tics }
    {
        if self.front.len() > place && self.front.len() - place > LONG_BLOCK {
            let _ = self.split(place);
        }
    }

    /// Makes a block of the tics of the front from a place on. Without memory nothing changes.
    fn split(&mut self, place: usize) -> Result<(), Memory>
        requires inside { place ≤ self.old.front }
        ensures same { self.new.tics ≡ self.old.tics }
    {
        let tail = Vec::from_slice(*self.front.allocator(), &self.front[place..])?;
        let moved = tail.len();
        self.blocks.insert(0, tail)?;
        self.front.truncate(place);
        self.behind += moved;
        Ok(())
    }

    /// Brings all tics before a place into the front, and no more than a block beyond. Without memory the tics stay.
    pub fn gather(&mut self, place: usize) -> Result<(), Memory>
        requires inside { place ≤ length self.old.tics }
        ensures same { self.new.tics ≡ self.old.tics }
        ensures there { OnOk result (place ≤ self.new.front) }
    {
        'gathering: while self.front.len() < place {
            let wanted = place - self.front.len();
            self.join_first(wanted.max(LONG_BLOCK))?;
        }
        Ok(())
    }

    /// Brings the first block into the front, or no more than so many tics of it if there is memory.
    fn join_first(&mut self, most: usize) -> Result<(), Memory>
        requires behind { self.old.front < length self.old.tics }
        ensures same { self.new.tics ≡ self.old.tics }
        ensures more { OnOk result (self.old.front < self.new.front) }
    {
        blocks::shorten_first(&mut self.blocks, most);
        let first = blocks::first(&self.blocks);
        let moved = first.len();
        self.front.extend_from_slice(first)?;
        blocks::erase(&mut self.blocks, 0, moved);
        self.behind -= moved;
        Ok(())
    }

    /// The tics of the front.
    pub fn front(&self) -> &[Tic]
        ensures front { result.now ≡ take self.now.front self.now.tics }
        ensures len { length result.now ≡ self.now.front }
    {
        &self.front
    }

    /// All tics, in order, as the vector that holds them.
    pub fn into_tics(self) -> Result<Vec<Tic>, Memory>
        ensures tics { IfOk result (λ tics. tics.items ≡ self.tics) }
    {
        let mut list = self;
        list.gather(list.len())?;
        let TicList {
            front,
            blocks: _,
            behind: _,
        } = list;
        Ok(front)
    }
}
