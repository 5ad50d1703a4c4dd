//! The numbers that a gallery is made of.
ghost use Rattle.std.specs.Prelude.{◌≡◌, length, IfOk, OnOk};
ghost use Rattle.gallery_gen.specs.Draws.{next_state, drawn, draws, state_after};

use doom_edge::Memory;
use std::alloc::Global;

/// A generator of numbers of 16 bits.
#[derive(Drop)]
pub struct Draws {
    state: u32,
}

impl Draws {
    /// The generator that begins with a number.
    pub fn new(number: u32) -> Self
        ensures { result.state ≡ number }
    {
        Draws { state: number }
    }

    fn next(&mut self) -> u16
        ensures drawn { result ≡ drawn self.old.state }
        ensures state { self.new.state ≡ next_state self.old.state }
    {
        self.state = ((u64::from(self.state) * 1_103_515_245 + 12_345) % 4_294_967_296) as u32;
        (self.state / 65_536) as u16
    }

    /// So many numbers, one after the other.
    #[tactic(auto, using(crate::proofs::Drawing::drawing_first, crate::proofs::Drawing::drawing_next, crate::proofs::Drawing::drawing_all, crate::proofs::Drawing::length_draws))]
    pub fn take(&mut self, alloc: Global, count: u32) -> Result<Vec<u16>, Memory>
        ensures draws { IfOk result (λ numbers. numbers.items ≡ draws count self.old.state) }
        ensures count { IfOk result (λ numbers. length numbers.items ≡ count) }
        ensures state { OnOk result (self.new.state ≡ state_after count self.old.state) }
    {
        let mut numbers = Vec::new(alloc);
        for _draw in 0..count {
            numbers.push(self.next())?;
        }
        Ok(numbers)
    }
}
