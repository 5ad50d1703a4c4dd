// The order of linking.
ghost use Rattle.std.specs.Prelude.{◌≡◌, ◌++◌, ◌<◌, [], All, OnOk, OnErr, IfOk, IfSome};
ghost use Rattle.link_order.specs.Links.{linked_first, block_things, EachOnce, IsWithin};

use crate::base::Base;
use crate::linked::Linked;
use crate::recent::Recent;
use doom_edge::{Memory, moves_between_threads};
use smallvec::SmallVec;
use std::alloc::Global;
use std::marker::Model;
use std::sync::Arc;

/// So many things are kept in a list without memory.
pub const FEW_THINGS: usize = 16;

/// Things, of which the first [`FEW_THINGS`] take no memory.
pub type Things = SmallVec<u32, FEW_THINGS>;

/// The things of a level in the order in which they were linked, the last linked first and each once. The
/// number of the level's blocks is fixed when the order is made. How many links may still be made without
/// memory is its room.
///
/// The order is a base, which forks share and nothing changes, and beside it the links since. Where those
/// are many a new base is made.
#[derive(Drop)]
pub struct LinkOrder {
    base: Arc<Base>,
    recent: Recent,
}

impl Model for LinkOrder {
    ghost use Rattle.std.specs.Prelude.{◌-◌, length};
    ghost use Rattle.std.specs.Arc.{arc_value};
    ghost use Rattle.link_order.specs.declared.recent.TheConstants.{RECENT_LEN};
    ghost use Rattle.link_order.specs.Links.{Links};
    ghost use Rattle.link_order.specs.Parts.{order_of, IsOrder};

    ghost Value = { Links };

    ghost view = { λ a. record {
      order = order_of a.recent (arc_value a.base).entries;
      room = RECENT_LEN - length a.recent;
      blocks = (arc_value a.base).blocks;
    } };

    ghost invariant = { λ a. IsOrder a.recent (arc_value a.base).entries (arc_value a.base).blocks };
}

impl LinkOrder {
    /// The order of a level with so many blocks, in which nothing is linked yet.
    pub fn new(alloc: Global, blocks: u32) -> Result<LinkOrder, Memory>
        ensures order { IfOk result (λ made. made.order ≡ []) }
        ensures blocks { IfOk result (λ made. made.blocks ≡ blocks) }
    {
        let base = Base::new(alloc, Vec::new(alloc), blocks as usize)?;
        let base = Arc::new(alloc, base)?;
        Ok(LinkOrder {
            base,
            recent: Recent::new(),
        })
    }

    /// The order of these entries, the last linked first, in a level with so many blocks. It takes about the time of the
    /// entries and the blocks, where that many links would take a part of the square of it.
    pub fn of(alloc: Global, entries: Vec<Linked>, blocks: u32) -> Result<LinkOrder, Memory>
        requires once { EachOnce entries.items }
        requires within { All (IsWithin blocks) entries.items }
        ensures order { IfOk result (λ made. made.order ≡ entries.items) }
        ensures blocks { IfOk result (λ made. made.blocks ≡ blocks) }
    {
        let base = Base::new(alloc, entries, blocks as usize)?;
        let base = Arc::new(alloc, base)?;
        Ok(LinkOrder {
            base,
            recent: Recent::new(),
        })
    }

    /// Sees to it that one more link may be made. On `Memory` all is as before.
    pub fn make_room(&mut self, alloc: Global) -> Result<(), Memory>
        ensures order { self.new.order ≡ self.old.order }
        ensures blocks { self.new.blocks ≡ self.old.blocks }
        ensures room { OnOk result (0 < self.new.room) }
        ensures err { OnErr result (self.new ≡ self.old) }
    {
        if self.recent.has_room() {
            return Ok(());
        }
        self.settle(alloc)
    }

    /// Makes a base of the whole order, which no other order names, and with no link since. On `Memory` all is as before.
    pub fn settle(&mut self, alloc: Global) -> Result<(), Memory>
        ensures order { self.new.order ≡ self.old.order }
        ensures blocks { self.new.blocks ≡ self.old.blocks }
        ensures room { OnOk result (0 < self.new.room) }
        ensures err { OnErr result (self.new ≡ self.old) }
    {
        let base = self.settled(alloc)?;
        self.base = Arc::new(alloc, base)?;
        self.recent = Recent::new();
        Ok(())
    }

    /// Links a thing in a block, or outside the grid. It then stands first, and where it stood before it
    /// stands no more.
    pub fn link(&mut self, thing: u32, block: Option<u32>)
        requires room { 0 < self.old.room }
        requires within { IfSome block (λ b. b < self.old.blocks) }
        ensures order { self.new.order ≡ linked_first thing block self.old.order }
        ensures once { EachOnce self.new.order }
        ensures blocks { self.new.blocks ≡ self.old.blocks }
    {
        self.recent.put_first(Linked { thing, block });
    }

    /// Appends the things of a block, in the order of linking. It takes no memory as long as `out` holds no more than
    /// [`FEW_THINGS`]. After `Memory` nothing is said of `out`.
    pub fn in_block(&self, block: u32, out: &mut Things) -> Result<(), Memory>
        ensures { OnOk result (out.new.items ≡ out.old.items ++ block_things block self.now.order) }
    {
        let recent = self.recent.as_slice();
        push_block(recent, block, out)?;
        self.base.push_block(block, recent, out)
    }

    /// A second order with the same things. A later link in either leaves the other.
    pub fn fork(&self) -> Result<LinkOrder, Memory>
        ensures order { IfOk result (λ forked. forked.order ≡ self.now.order) }
        ensures blocks { IfOk result (λ forked. forked.blocks ≡ self.now.blocks) }
    {
        let base = Arc::try_clone(&self.base)?;
        Ok(LinkOrder {
            base,
            recent: self.recent.copy(),
        })
    }

    // A base of the whole order.
    fn settled(&self, alloc: Global) -> Result<Base, Memory>
        ensures { IfOk result (λ base. base ≡ record { entries = self.now.order; blocks = self.now.blocks }) }
    {
        let recent = self.recent.as_slice();
        let mut entries = Vec::from_slice(alloc, recent)?;
        self.base.push_fresh(recent, &mut entries)?;
        Base::new(alloc, entries, self.base.blocks())
    }
}

// Appends the things of a block.
fn push_block(entries: &[Linked], block: u32, out: &mut Things) -> Result<(), Memory>
    ensures { OnOk result (out.new.items ≡ out.old.items ++ block_things block entries.now) }
{
    for linked in entries {
        if linked.stands_in(block) {
            out.push(linked.thing)?;
        }
    }
    Ok(())
}

// An order may move to another thread.
fn moves(order: LinkOrder) -> LinkOrder
    ensures { result ≡ order }
{
    moves_between_threads(order)
}
