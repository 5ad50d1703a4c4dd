// One thing and its block.

/// A thing that was linked: its number, and the number of its block. A thing that stands outside the level's
/// block grid is linked too, and has no block.
#[derive(Clone, Copy, Debug, PartialEq, Eq)]
pub struct Linked {
    pub thing: u32,
    pub block: Option<u32>,
}

impl Linked {
    ghost use Rattle.std.specs.Prelude.{◌≡◌};
    ghost use Rattle.link_order.specs.Links.{stands_in, is_other};
    ghost use Rattle.link_order.specs.Parts.{is_fresh};

    /// Whether it stands in this block.
    pub fn stands_in(&self, block: u32) -> bool
        ensures { result ≡ stands_in block self.now }
    {
        match self.block {
            Some(own) => own == block,
            None => false,
        }
    }

    // Whether it is another thing.
    pub(crate) fn is_other(&self, thing: u32) -> bool
        ensures { result ≡ is_other thing self.now }
    {
        self.thing != thing
    }

    // Whether it is a thing of none of the latest links.
    pub(crate) fn is_fresh(&self, recent: &[Linked]) -> bool
        ensures { result ≡ is_fresh recent.now self.now }
    {
        recent.iter().all(|own| self.is_other(own.thing))
    }
}
