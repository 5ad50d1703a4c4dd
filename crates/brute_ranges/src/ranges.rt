//! The ranges of one tic, and the tics that they hold.

ghost use Rattle.std.specs.Prelude.{◌≡◌, Bool, ◌^◌, ◌<◌, ◌≤◌, ◌↔◌, pos, negsuc, ◌+ℤ◌, ◌≤ℤ◌, IsTrue, slice_get, Some};
ghost use Rattle.lmp_codec.specs.Turns.{turn_count, least_turn, greatest_turn};
ghost use Rattle.brute_ranges.specs.Tics.{width, tics_of, tic_count, buttons_of, tic_with, IsBetween, IsWithin, InBounds, HasValues, IsSound};

use lmp_codec::{Tic, greatest_turn, least_turn, turn_count, turn_of};

/// The numbers from `low` to `high`, both among them.
#[derive(Clone, Copy, Debug, PartialEq, Eq)]
pub struct Range {
    pub low: i32,
    pub high: i32,
}

/// A range for each value of a tic. Use 1 holds the use button, use 0 holds none.
#[derive(Clone, Copy, Debug, PartialEq, Eq)]
pub struct TicRanges {
    pub forward: Range,
    pub side: Range,
    pub turn: Range,
    pub using: Range,
}

/// How many numbers a range has.
pub(crate) fn width(range: Range) -> u64
    ensures width { result ≡ width range }
    ensures few { result ≤ 2 ^ 32 }
{
    let low = i64::from(range.low);
    let high = i64::from(range.high);
    if low <= high {
        (high - low + 1) as u64
    } else {
        0
    }
}

/// Whether both ends of a range are at least `low` and at most `high`.
fn is_within(range: Range, low: i32, high: i32) -> bool
    ensures { IsTrue result ↔ IsWithin low high range }
{
    if range.low < low {
        return false;
    }
    if high < range.low {
        return false;
    }
    if range.high < low {
        return false;
    }
    if high < range.high {
        return false;
    }
    true
}

/// Whether a range has a number.
fn is_filled(range: Range) -> bool
    ensures { IsTrue result ↔ (range.low ≤ℤ range.high) }
{
    range.low <= range.high
}

/// Whether a range reaches no further than the turns of this demo, and has none twice.
fn are_turns(range: Range, long: bool) -> bool
    ensures { IsTrue result ↔ (IsWithin (least_turn long) (greatest_turn long) range × (width range ≤ turn_count long)) }
{
    if !is_within(range, least_turn(long), greatest_turn(long)) {
        return false;
    }
    if width(range) > u64::from(turn_count(long)) {
        return false;
    }
    true
}

/// Whether no range reaches beyond what a tic of this demo can hold, and no turn stands in one twice.
pub(crate) fn is_in_bounds(ranges: &TicRanges, long: bool) -> bool
    ensures { IsTrue result ↔ InBounds long ranges.now }
{
    if !is_within(ranges.forward, -127, 127) {
        return false;
    }
    if !is_within(ranges.side, -128, 127) {
        return false;
    }
    if !are_turns(ranges.turn, long) {
        return false;
    }
    is_within(ranges.using, 0, 1)
}

/// Whether each range has a number.
pub(crate) fn has_values(ranges: &TicRanges) -> bool
    ensures { IsTrue result ↔ HasValues ranges.now }
{
    if !is_filled(ranges.forward) {
        return false;
    }
    if !is_filled(ranges.side) {
        return false;
    }
    if !is_filled(ranges.turn) {
        return false;
    }
    is_filled(ranges.using)
}

/// How many tics the ranges hold, in a demo of either version.
pub(crate) fn tic_count(ranges: &TicRanges) -> u64
    requires { (long : Bool) × IsSound long ranges.now }
    ensures count { (long : Bool) → result ≡ tic_count long ranges.now }
    ensures some_tic { 0 < result }
    ensures few { result ≤ 2 ^ 33 }
{
    width(ranges.forward) * width(ranges.side) * width(ranges.turn) * width(ranges.using)
}

/// The number at a place of a range.
fn value_at(range: Range, place: u64) -> i32
    requires place { place < width range }
    requires filled { range.low ≤ℤ range.high }
    ensures value { result ≡ range.low +ℤ pos place }
    ensures low { range.low ≤ℤ result }
    ensures high { result ≤ℤ range.high }
{
    (i64::from(range.low) + place as i64) as i32
}

/// The buttons of a tic: the use button is button 2.
fn buttons_of(uses: i32) -> u8
    ensures { result ≡ buttons_of uses }
{
    if uses == 1 { 2 } else { 0 }
}

/// The tic of a number of each range.
fn made(long: bool, forward: i32, side: i32, turn: i32, uses: i32) -> Tic
    requires forward { IsBetween (negsuc 126) (pos 127) forward }
    requires side { IsBetween (negsuc 127) (pos 127) side }
    ensures { result ≡ tic_with long forward side turn uses }
{
    Tic::of_numbers(
        forward as i8,
        side as i8,
        turn_of(long, turn),
        buttons_of(uses),
    )
}

/// The tic at a place of those that the ranges hold.
pub(crate) fn tic_numbered(ranges: &TicRanges, long: bool, place: u64) -> Tic
    requires sound { IsSound long ranges.now }
    requires place { place < tic_count long ranges.now }
    ensures { slice_get (tics_of long ranges.now) place ≡ Some result }
{
    let using_width = width(ranges.using);
    let turn_width = width(ranges.turn);
    let side_width = width(ranges.side);
    let turns = place / using_width;
    let sides = turns / turn_width;
    made(
        long,
        value_at(ranges.forward, sides / side_width),
        value_at(ranges.side, sides % side_width),
        value_at(ranges.turn, turns % turn_width),
        value_at(ranges.using, place % using_width),
    )
}
