//! A search while its lines are read.

ghost use Rattle.std.specs.Prelude.{◌≡◌, ◌≤◌, ◌<◌, length, replicate, nat_le, IfOk, OnOk, OnErr, Err};
ghost use Rattle.build_script.specs.Commands.{HoldsTicOf};
ghost use Rattle.build_script.specs.Searches.{is_chosen, with_range, narrowed_one, narrowed, resting, opened, with_tics, with_want, most_wants, IsRangeOn};
ghost use Rattle.build_script.specs.Script.{gone, Gives, space_refusal};

use crate::commands::Command;
use crate::fault::{Kind, ScriptFault};
use crate::names::Axis;
use brute_ranges::{Range, Space, SpaceFault, TicRanges};
use brute_targets::{MAX_WANTS, Want, Wants};
use std::alloc::Global;
use std::marker::Model;

/// Some tics of a search.
#[derive(Clone, Copy)]
pub enum Chosen {
    Every,
    /// The tic with this number, counted from 1.
    One(u32),
}

/// A search that is open: contracts see the line at which it was opened, its ranges and its targets.
#[derive(Drop)]
pub struct Search {
    line: u32,
    tics: Vec<TicRanges>,
    long: bool,
    wants: Vec<Want>,
}

impl Model for Search {
    ghost use Rattle.brute_ranges.specs.Space.{ranges_with};
    ghost use Rattle.build_script.specs.Opened.{Opened, IsOpened};

    ghost Value = { Opened };

    ghost view = { λ s. record { line = s.line; ranges = ranges_with s.tics.items s.long; wants = s.wants.items } };

    ghost invariant = { λ s. IsOpened (record { line = s.line; ranges = ranges_with s.tics.items s.long; wants = s.wants.items }) };
}

/// The one number 0.
const ZERO: Range = Range { low: 0, high: 0 };

/// Every range is 0 to 0.
const RESTING: TicRanges = TicRanges {
    forward: ZERO,
    side: ZERO,
    turn: ZERO,
    using: ZERO,
};

/// Whether the tic with this number is chosen.
fn is_chosen(tics: Chosen, number: u32) -> bool
    ensures { result ≡ is_chosen tics number }
{
    match tics {
        Chosen::Every => true,
        Chosen::One(one) => number == one,
    }
}

/// The ranges of a tic with another range on an axis.
fn with_range(axis: Axis, range: Range, ranges: TicRanges) -> TicRanges
    ensures { result ≡ with_range axis range ranges }
{
    match axis {
        Axis::Forward => TicRanges {
            forward: range,
            ..ranges
        },
        Axis::Side => TicRanges {
            side: range,
            ..ranges
        },
        Axis::Turn => TicRanges {
            turn: range,
            ..ranges
        },
        Axis::Using => TicRanges {
            using: range,
            ..ranges
        },
    }
}

/// The ranges of the tic with this number, with another range on an axis where it is chosen.
fn narrowed_one(number: u32, tics: Chosen, axis: Axis, range: Range, ranges: TicRanges) -> TicRanges
    ensures { result ≡ narrowed_one number tics axis range ranges }
{
    if is_chosen(tics, number) {
        with_range(axis, range, ranges)
    } else {
        ranges
    }
}

/// Gives the chosen tics another range on an axis.
fn narrow(all: &mut Vec<TicRanges>, tics: Chosen, axis: Axis, range: Range)
    requires { length all.old.items ≤ 35 }
    ensures { all.new.items ≡ narrowed tics axis range all.old.items }
{
    for place in 0..all.len() {
        all[place] = narrowed_one(place as u32 + 1, tics, axis, range, all[place]);
    }
}

/// So many tics whose ranges are 0 to 0.
fn resting(alloc: Global, depth: u32) -> Result<Vec<TicRanges>, ScriptFault>
    ensures tics { IfOk result (λ tics. tics.items ≡ replicate depth resting) }
    ensures memory { OnErr result (result ≡ Err ScriptFault.Memory) }
{
    let mut tics = Vec::new(alloc);
    tics.resize(depth as usize, RESTING)?;
    Ok(tics)
}

/// The fault of a line whose ranges make no space, though each is one that a tic may have.
fn space_refusal(line: u32, fault: SpaceFault) -> ScriptFault
    ensures { result ≡ space_refusal line fault }
{
    match fault {
        SpaceFault::Memory => ScriptFault::Memory,
        SpaceFault::TooMany => ScriptFault::Line(line, Kind::Space),
        SpaceFault::Depth(_) => ScriptFault::Line(line, Kind::Space),
        SpaceFault::Bounds(_) => ScriptFault::Line(line, Kind::Space),
        SpaceFault::EmptyRange(_) => ScriptFault::Line(line, Kind::Space),
    }
}

impl Search {
    /// A search of so many tics, opened at this line.
    pub fn begin(alloc: Global, line: u32, depth: u32, long: bool) -> Result<Search, ScriptFault>
        requires { (1 ≤ depth) × (depth ≤ 35) }
        ensures opened { IfOk result (λ search. search ≡ opened line depth long) }
        ensures memory { OnErr result (result ≡ Err ScriptFault.Memory) }
    {
        let tics = resting(alloc, depth)?;
        Ok(Search {
            line,
            tics,
            long,
            wants: Vec::new(alloc),
        })
    }

    /// The line at which it was opened.
    pub fn line(&self) -> u32
        ensures { result ≡ self.now.line }
    {
        self.line
    }

    /// How many tics it has.
    pub fn depth(&self) -> u32
        ensures { result ≡ length self.now.ranges.tics }
    {
        self.tics.len() as u32
    }

    /// Whether its turns are those of a long demo.
    pub fn is_long(&self) -> bool
        ensures { result ≡ self.now.ranges.long }
    {
        self.long
    }

    /// Gives the chosen tics another range on an axis.
    pub fn narrow(&mut self, tics: Chosen, axis: Axis, range: Range)
        requires { IsRangeOn self.old.ranges.long axis range }
        ensures { self.new ≡ with_tics self.old (narrowed tics axis range self.old.ranges.tics) }
    {
        narrow(&mut self.tics, tics, axis, range);
    }

    /// Whether it has as many targets as a search may have.
    pub fn is_full(&self) -> bool
        ensures { result ≡ nat_le most_wants (length self.now.wants) }
    {
        self.wants.len() >= MAX_WANTS
    }

    /// Adds a target.
    pub fn add(&mut self, want: Want) -> Result<(), ScriptFault>
        requires { length self.old.wants < most_wants }
        ensures added { OnOk result (self.new ≡ with_want self.old want) }
        ensures memory { OnErr result (result ≡ Err ScriptFault.Memory) }
    {
        self.wants.push(want)?;
        Ok(())
    }

    /// The command that carries it out, which is refused at this line where it has too many sequences.
    pub fn finish(self, alloc: Global, line: u32) -> Result<Command, ScriptFault>
        ensures gone { Gives result (gone line self) }
        ensures held { IfOk result (HoldsTicOf self.ranges.long) }
    {
        let Search {
            line: _,
            tics,
            long,
            wants,
        } = self;
        match Space::new(alloc, tics, long) {
            Ok(space) => Ok(Command::Go(space, Wants::new(wants))),
            Err(fault) => Err(space_refusal(line, fault)),
        }
    }
}
