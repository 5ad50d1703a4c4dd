// The latest links.
ghost use Rattle.std.specs.Prelude.{◌≡◌, ◌<◌, ◌≤◌, ◌↔◌, [], length, IsTrue, slice_set};
ghost use Rattle.link_order.specs.Links.{EachOnce};
ghost use Rattle.link_order.specs.Parts.{in_front, begins_with};

use crate::linked::Linked;
use std::marker::Model;

// How many links are kept beside the base.
pub(crate) const RECENT_LEN: usize = 4;

// The latest links, the last first. They stand in the struct itself, so that a copy takes no memory.
#[derive(Drop)]
pub(crate) struct Recent {
    entries: [Linked; RECENT_LEN],
    len: usize,
}

impl Model for Recent {
    ghost use Rattle.std.specs.Prelude.{◌≤◌, List, take};
    ghost use Rattle.link_order.specs.declared.linked.Linked.{Linked};
    ghost use Rattle.link_order.specs.declared.recent.TheConstants.{RECENT_LEN};

    ghost Value = { List Linked };

    ghost view = { λ a. take a.len a.entries };

    ghost invariant = { λ a. a.len ≤ RECENT_LEN };
}

impl Recent {
    pub(crate) fn new() -> Recent
        ensures { result ≡ [] }
    {
        let unused = Linked {
            thing: 0,
            block: None,
        };
        Recent {
            entries: [unused; RECENT_LEN],
            len: 0,
        }
    }

    pub(crate) fn as_slice(&self) -> &[Linked]
        ensures same { result.now ≡ self.now }
        ensures most { length self.now ≤ RECENT_LEN }
    {
        &self.entries[..self.len]
    }

    // Whether one more fits.
    pub(crate) fn has_room(&self) -> bool
        ensures { IsTrue result ↔ (length self.now < RECENT_LEN) }
    {
        self.as_slice().len() < RECENT_LEN
    }

    // Whether the first entry is of this thing.
    fn begins_with(&self, thing: u32) -> bool
        ensures { result ≡ begins_with thing self.now }
    {
        match self.as_slice().first() {
            Some(first) => first.thing == thing,
            None => false,
        }
    }

    // Puts an entry in front, and drops the one of the same thing. Where that stands in front already, no other moves.
    pub(crate) fn put_first(&mut self, first: Linked)
        requires room { length self.old < RECENT_LEN }
        requires once { EachOnce self.old }
        ensures { self.new ≡ in_front first self.old }
    {
        if self.begins_with(first.thing) {
            self.entries[0] = first;
            return;
        }
        let mut entries = [first; RECENT_LEN];
        let mut len = 1;
        for linked in self.as_slice() {
            if linked.is_other(first.thing) {
                entries[len] = *linked;
                len += 1;
            }
        }
        *self = Recent { entries, len };
    }

    pub(crate) fn copy(&self) -> Recent
        ensures { result ≡ self.now }
    {
        Recent {
            entries: self.entries,
            len: self.len,
        }
    }
}
