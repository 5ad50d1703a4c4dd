//! A space of sequences, with the radix and the place value of each tic.

ghost use Rattle.std.specs.Prelude.{◌≡◌, ℕ, ◌^◌, ◌<◌, ◌≤◌, ◌++◌, ◌∷◌, length, take, drop, All, IfOk, IfErr, OnOk, Some, slice_get};
ghost use Rattle.brute_ranges.specs.Tics.{IsSound};
ghost use Rattle.brute_ranges.specs.Space.{ranges_with, all_sequences, sequence_at, shared_front, IsDeep, IsSpace, IsFault, SharesExactly};
ghost use Rattle.brute_ranges.specs.Wheels.{ranges_of, seen, AreWheels};

use crate::fault::SpaceFault;
use crate::ranges::{TicRanges, has_values, is_in_bounds, tic_count, tic_numbered};
use lmp_codec::{Memory, Tic};
use std::alloc::Global;
use std::marker::Model;

/// How many tics a sequence has at most.
pub const MAX_DEPTH: usize = 35;

/// How many sequences a space has at most.
pub const MAX_SEQUENCES: u64 = 1 << 40;

/// One tic of a space: how many tics its ranges hold, and how many sequences the later tics make.
#[derive(Clone, Copy, Debug, PartialEq, Eq)]
struct Wheel {
    ranges: TicRanges,
    tics: u64,
    later: u64,
}

/// The sequences of a search. Contracts see it as the ranges of its tics, and whether their turns are those of a long demo.
#[derive(Debug, Drop)]
pub struct Space {
    wheels: Vec<Wheel>,
    count: u64,
    long: bool,
}

impl Model for Space {
    ghost use Rattle.brute_ranges.specs.Space.{Ranges, IsSpace};
    ghost use Rattle.brute_ranges.specs.Wheels.{seen, AreWheels};

    ghost Value = { Ranges };

    ghost view = { λ space. seen space.wheels.items space.long };

    ghost invariant = { λ space. IsSpace (seen space.wheels.items space.long) × AreWheels space.long space.wheels.items space.count };
}

/// The first fault of the tics, each by itself.
fn judged(tics: &[TicRanges], long: bool) -> Result<(), SpaceFault>
    requires { IsDeep tics.now }
    ensures ok { OnOk result (All (IsSound long) tics.now) }
    ensures fault { IfErr result (IsFault (ranges_with tics.now long)) }
{
    for (i, ranges) in tics.iter().enumerate() {
        if !is_in_bounds(ranges, long) {
            return Err(SpaceFault::Bounds(i));
        }
        if !has_values(ranges) {
            return Err(SpaceFault::EmptyRange(i));
        }
    }
    Ok(())
}

/// A wheel in front of others.
fn in_front(wheels: &mut Vec<Wheel>, wheel: Wheel) -> Result<(), SpaceFault>
    ensures ok { OnOk result (wheels.new.items ≡ wheel ∷ wheels.old.items) }
    ensures err { IfErr result (λ fault. fault ≡ SpaceFault.Memory) }
{
    match wheels.insert(0, wheel) {
        Ok(()) => Ok(()),
        Err(_) => Err(SpaceFault::Memory),
    }
}

/// The wheels of these tics, and how many sequences they make.
fn wheels_of(alloc: Global, tics: &[TicRanges], long: bool) -> Result<(Vec<Wheel>, u64), SpaceFault>
    requires deep { IsDeep tics.now }
    requires sound { All (IsSound long) tics.now }
    ensures ranges { IfOk result (λ made. ranges_of made.0.items ≡ tics.now) }
    ensures wheels { IfOk result (λ made. AreWheels long made.0.items made.1) }
    ensures few { IfOk result (λ made. made.1 ≤ 2 ^ 40) }
    ensures fault { IfErr result (IsFault (ranges_with tics.now long)) }
{
    let mut wheels = Vec::new(alloc);
    let mut count = 1;
    let mut left = tics.len();
    while left > 0 {
        left -= 1;
        let ranges = tics[left];
        let radix = tic_count(&ranges);
        if radix > MAX_SEQUENCES / count {
            return Err(SpaceFault::TooMany);
        }
        let wheel = Wheel {
            ranges,
            tics: radix,
            later: count,
        };
        in_front(&mut wheels, wheel)?;
        count *= radix;
    }
    Ok((wheels, count))
}

impl Space {
    /// The space of these ranges, whose turns are those of a long demo or of a short one.
    pub fn new(alloc: Global, tics: Vec<TicRanges>, long: bool) -> Result<Space, SpaceFault>
        ensures ok { IfOk result (λ space. space ≡ ranges_with tics.items long) }
        ensures sound { IfOk result IsSpace }
        ensures fault { IfErr result (IsFault (ranges_with tics.items long)) }
    {
        let depth = tics.len();
        if depth == 0 {
            return Err(SpaceFault::Depth(depth));
        }
        if depth > MAX_DEPTH {
            return Err(SpaceFault::Depth(depth));
        }
        judged(&tics, long)?;
        let (wheels, count) = wheels_of(alloc, &tics, long)?;
        Ok(Space {
            wheels,
            count,
            long,
        })
    }

    /// How many sequences there are.
    pub fn count(&self) -> u64
        ensures count { result ≡ length (all_sequences self.now) }
        ensures some_sequence { 0 < result }
        ensures few { result ≤ 2 ^ 40 }
    {
        self.count
    }

    /// How many tics a sequence has.
    pub fn depth(&self) -> u32
        ensures depth { result ≡ length self.now.tics }
        ensures deep { IsDeep self.now.tics }
        ensures each { (k : ℕ) → k < length (all_sequences self.now) → length (sequence_at self.now k) ≡ length self.now.tics }
    {
        self.wheels.len() as u32
    }

    /// Tic i of sequence k.
    pub fn tic_at(&self, k: u64, i: u32) -> Tic
        requires number { k < length (all_sequences self.now) }
        requires place { i < length self.now.tics }
        ensures tic { slice_get (sequence_at self.now k) i ≡ Some result }
    {
        let wheel = self.wheels[i as usize];
        tic_numbered(&wheel.ranges, self.long, k / wheel.later % wheel.tics)
    }

    /// How many leading tics the sequences a and b share. The sequences between them begin with these tics too, so no
    /// sequence shares more with one before the last than with the last one.
    pub fn shared(&self, a: u64, b: u64) -> u32
        requires first { a < length (all_sequences self.now) }
        requires second { b < length (all_sequences self.now) }
        ensures shared { result ≡ shared_front (sequence_at self.now a) (sequence_at self.now b) }
        ensures exactly { SharesExactly result (sequence_at self.now a) (sequence_at self.now b) }
        ensures between { (m : ℕ) → a ≤ m → m ≤ b → take result (sequence_at self.now a) ≡ take result (sequence_at self.now m) }
    {
        let depth = self.depth();
        for i in 0..depth {
            let later = self.wheels[i as usize].later;
            if a / later != b / later {
                return i;
            }
        }
        depth
    }

    /// Writes the tics of sequence k, from tic `from` on.
    pub fn write(&self, k: u64, from: u32, tics: &mut [Tic])
        requires number { k < length (all_sequences self.now) }
        requires length { length tics.old ≡ length self.now.tics }
        requires from { from ≤ length self.now.tics }
        ensures written { tics.new ≡ take from tics.old ++ drop from (sequence_at self.now k) }
    {
        let depth = self.depth();
        for n in 0..depth - from {
            tics[(from + n) as usize] = self.tic_at(k, from + n);
        }
    }

    /// The tics of sequence k.
    pub fn sequence(&self, alloc: Global, k: u64) -> Result<Vec<Tic>, Memory>
        requires { k < length (all_sequences self.now) }
        ensures sequence { IfOk result (λ tics. tics.items ≡ sequence_at self.now k) }
    {
        let mut tics = Vec::new(alloc);
        for i in 0..self.depth() {
            tics.push(self.tic_at(k, i))?;
        }
        Ok(tics)
    }
}
