// The order as it once stood, with the way through each block.
ghost use Rattle.std.specs.Prelude.{◌≡◌, ◌++◌, length, filter, All, OnOk, IfOk};
ghost use Rattle.link_order.specs.Links.{block_things, IsWithin};
ghost use Rattle.link_order.specs.Parts.{is_fresh, IsJoined};

use crate::linked::Linked;
use crate::order::Things;
use doom_edge::Memory;
use std::alloc::Global;
use std::marker::Model;

// The entries of an order as it once stood, the last linked first. `heads` has the place of each block's first
// entry, and `next` for each entry the place of the next one of its block: past the end where there is none.
#[derive(Drop)]
pub(crate) struct Base {
    entries: Vec<Linked>,
    heads: Vec<usize>,
    next: Vec<usize>,
}

impl Model for Base {
    ghost use Rattle.std.specs.Prelude.{length};
    ghost use Rattle.link_order.specs.Parts.{Settled, IsBase};

    ghost Value = { Settled };

    ghost view = { λ a. record { entries = a.entries.items; blocks = length a.heads.items } };

    ghost invariant = { λ a. IsBase a.entries.items a.heads.items a.next.items };
}

impl Base {
    // A base of these entries.
    pub(crate) fn new(alloc: Global, entries: Vec<Linked>, blocks: usize) -> Result<Base, Memory>
        requires { All (IsWithin blocks) entries.items }
        ensures { IfOk result (λ base. base ≡ record { entries = entries.items; blocks = blocks }) }
    {
        let past_end = entries.len();
        let mut heads = vec![in alloc; past_end; blocks]?;
        let mut next = vec![in alloc; past_end; past_end]?;
        join(&entries, &mut heads, &mut next);
        Ok(Base {
            entries,
            heads,
            next,
        })
    }

    // How many blocks the level has.
    pub(crate) fn blocks(&self) -> usize
        ensures blocks { result ≡ self.now.blocks }
        ensures within { All (IsWithin self.now.blocks) self.now.entries }
    {
        self.heads.len()
    }

    // Appends the entries of things that were not linked since.
    pub(crate) fn push_fresh(&self, recent: &[Linked], into: &mut Vec<Linked>) -> Result<(), Memory>
        ensures { OnOk result (
            into.new.items ≡ into.old.items ++ filter (is_fresh recent.now) self.now.entries) }
    {
        for linked in &self.entries {
            if linked.is_fresh(recent) {
                into.push(*linked)?;
            }
        }
        Ok(())
    }

    // Appends the things of a block that were not linked since.
    pub(crate) fn push_block(
        &self,
        block: u32,
        recent: &[Linked],
        out: &mut Things,
    ) -> Result<(), Memory>
        ensures { OnOk result (
            out.new.items ≡ out.old.items ++ block_things block (filter (is_fresh recent.now) self.now.entries)) }
    {
        let Some(head) = self.heads.get(block as usize) else {
            return Ok(());
        };
        let mut at = *head;
        while at < self.entries.len() {
            let linked = self.entries[at];
            if linked.is_fresh(recent) {
                out.push(linked.thing)?;
            }
            at = self.next[at];
        }
        Ok(())
    }
}

// Finds the way through each block, from the last entry to the first.
fn join(entries: &[Linked], heads: &mut [usize], next: &mut [usize])
    requires long { length next.old ≡ length entries.now }
    requires within { All (IsWithin (length heads.old)) entries.now }
    requires empty { All (λ head. head ≡ length entries.now) heads.old }
    ensures joined { IsJoined entries.now heads.new next.new 0 }
{
    for i in (0..entries.len()).rev() {
        if let Some(block) = entries[i].block {
            next[i] = heads[block as usize];
            heads[block as usize] = i;
        }
    }
}
