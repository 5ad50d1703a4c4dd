//! The lines within an open search: ranges, targets, and its end.

ghost use Rattle.std.specs.Prelude.{◌≡◌, ◌≤◌, ◌≤ℤ◌, pos, negsuc, codes, Some, IfOk};
ghost use Rattle.std.specs.Str.{bytes_eq};
ghost use Rattle.lmp_codec.specs.Turns.{turn_count};
ghost use Rattle.brute_ranges.specs.Tics.{width};
ghost use Rattle.build_script.specs.Steps.{Reads};
ghost use Rattle.build_script.specs.Targets.{reading_in, want_in};
ghost use Rattle.build_script.specs.Searches.{axis_bounds, range_of, next_range, tic_number, next_chosen, narrowing_in, inner_named, inside, IsRangeOn, IsSoundInside};
ghost use Rattle.build_script.specs.Text.{words};

use crate::fault::Kind;
use crate::judge::{FORWARD, SIDE, is_comment, turn_bounds};
use crate::names::{Aim, Axis, Inner, inner_of};
use crate::numbers::{Bounds, number_within};
use crate::search::Chosen;
use crate::steps::{complete, next_aim, next_axis, next_number, next_op, next_value, number_in};
use crate::text::Words;
use brute_ranges::Range;
use brute_targets::Want;
use game_trait::Quantity;
use lmp_codec::turn_count;

/// Whether the use button is held.
const USE: Bounds = Bounds {
    least: 0,
    greatest: 1,
};

/// What a line within a search says.
#[derive(Clone, Copy)]
pub enum Inside {
    /// It has no words, or is a comment.
    Nothing,
    /// These tics have this range on this axis.
    Narrows(Chosen, Axis, Range),
    /// This is a target.
    Adds(Want),
    /// The search is carried out.
    Goes,
}

/// The bounds of a range on an axis.
fn axis_bounds(axis: Axis, long: bool) -> Bounds
    ensures bounds { result ≡ axis_bounds long axis }
    ensures least { negsuc 32767 ≤ℤ result.least }
    ensures greatest { result.greatest ≤ℤ pos 65535 }
{
    match axis {
        Axis::Forward => FORWARD,
        Axis::Side => SIDE,
        Axis::Turn => turn_bounds(long),
        Axis::Using => USE,
    }
}

/// The range of two numbers, unless it is empty or has more numbers than a circle has turns.
fn range_of(long: bool, low: i64, high: i64) -> Result<Range, Kind>
    requires low_least { negsuc 32767 ≤ℤ low }
    requires low_greatest { low ≤ℤ pos 65535 }
    requires high_least { negsuc 32767 ≤ℤ high }
    requires high_greatest { high ≤ℤ pos 65535 }
    ensures range { result ≡ range_of long low high }
    ensures ends { IfOk result (λ range. (range.low ≡ low) × (range.high ≡ high)) }
    ensures few { IfOk result (λ range. width range ≤ turn_count long) }
    ensures filled { IfOk result (λ range. range.low ≤ℤ range.high) }
{
    if high < low {
        return Err(Kind::Range);
    }
    if high - low >= i64::from(turn_count(long)) {
        return Err(Kind::Range);
    }
    Ok(Range {
        low: low as i32,
        high: high as i32,
    })
}

/// The range that the next two words spell on an axis.
fn next_range(words: &mut Words, axis: Axis, long: bool) -> Result<Range, Kind>
    ensures range { Reads result words.new (next_range long axis words.old) }
    ensures sound { IfOk result (IsRangeOn long axis) }
{
    let bounds = axis_bounds(axis, long);
    let low = next_number(words, bounds)?;
    let high = next_number(words, bounds)?;
    range_of(long, low, high)
}

/// The number of one of so many tics, counted from 1.
fn tic_number(word: &[u8], depth: u32) -> Result<u32, Kind>
    ensures { result ≡ tic_number depth word.now }
{
    let bounds = Bounds {
        least: 1,
        greatest: i64::from(depth),
    };
    let number = number_within(word, bounds)?;
    Ok(number as u32)
}

/// The tics that the next word chooses of so many.
fn next_chosen(words: &mut Words, depth: u32) -> Result<Chosen, Kind>
    ensures { Reads result words.new (next_chosen depth words.old) }
{
    let Some(word) = words.next() else {
        return Err(Kind::Missing);
    };
    if is_all(word) {
        return Ok(Chosen::Every);
    }
    Ok(Chosen::One(tic_number(word, depth)?))
}

/// Whether a word chooses every tic.
fn is_all(word: &[u8]) -> bool
    ensures { result ≡ bytes_eq word.now (codes "all") }
{
    matches!(word, b"all")
}

/// A range for some of so many tics.
fn narrowing_in(mut words: Words, depth: u32, long: bool) -> Result<Inside, Kind>
    ensures said { result ≡ narrowing_in depth long words.entry }
    ensures sound { IfOk result (IsSoundInside long) }
{
    let tics = next_chosen(&mut words, depth)?;
    let axis = next_axis(&mut words)?;
    let range = next_range(&mut words, axis, long)?;
    complete(words)?;
    Ok(Inside::Narrows(tics, axis, range))
}

/// A reading of this quantity, by an operator and a value.
fn reading_in(quantity: Quantity, mut words: Words) -> Result<Want, Kind>
    ensures { result ≡ reading_in quantity words.entry }
{
    let op = next_op(&mut words)?;
    let value = next_value(&mut words)?;
    complete(words)?;
    Ok(Want::Reading(quantity, op, value))
}

/// A target.
fn want_in(mut words: Words) -> Result<Want, Kind>
    ensures { result ≡ want_in words.entry }
{
    match next_aim(&mut words)? {
        Aim::Reads(quantity) => reading_in(quantity, words),
        Aim::Line => Ok(Want::Line(u32::from(number_in(words)?))),
        Aim::Exit => {
            complete(words)?;
            Ok(Want::Exit)
        }
    }
}

/// What the name says with the words after it, in a search of so many tics.
fn inner_named(name: Inner, words: Words, depth: u32, long: bool) -> Result<Inside, Kind>
    ensures said { result ≡ inner_named depth long (Some name) words.entry }
    ensures sound { IfOk result (IsSoundInside long) }
{
    match name {
        Inner::Range => narrowing_in(words, depth, long),
        Inner::Want => Ok(Inside::Adds(want_in(words)?)),
        Inner::Go => {
            complete(words)?;
            Ok(Inside::Goes)
        }
    }
}

/// What a line within a search of so many tics says.
pub fn said_inside(line: &[u8], depth: u32, long: bool) -> Result<Inside, Kind>
    ensures said { result ≡ inside depth long (words line.now) }
    ensures sound { IfOk result (IsSoundInside long) }
{
    let mut words = Words::new(line);
    let Some(word) = words.next() else {
        return Ok(Inside::Nothing);
    };
    if is_comment(word) {
        return Ok(Inside::Nothing);
    }
    let Some(name) = inner_of(word) else {
        return Err(Kind::Word);
    };
    inner_named(name, words, depth, long)
}
