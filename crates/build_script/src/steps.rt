//! How the words of a line are judged one after the other.

ghost use Rattle.std.specs.Prelude.{◌≡◌, ◌≤ℤ◌, ◌≤◌, IfOk, unsigned_abs};
ghost use Rattle.build_script.specs.Words.{axis_of, aim_of, op_of};
ghost use Rattle.build_script.specs.Steps.{Reads, next_number, next_known, complete, place_number_bounds};
ghost use Rattle.build_script.specs.Commands.{number_in};
ghost use Rattle.build_script.specs.Targets.{next_value};

use crate::fault::Kind;
use crate::names::{Aim, Axis, aim_of, axis_of, op_of};
use crate::numbers::{Bounds, number_within, target_value};
use crate::text::Words;
use brute_targets::Op;

/// The number of a sector or a line.
const PLACE_NUMBER: Bounds = Bounds {
    least: 0,
    greatest: 65_535,
};

/// The number that the next word spells.
pub fn next_number(words: &mut Words, bounds: Bounds) -> Result<i64, Kind>
    ensures value { Reads result words.new (next_number bounds words.old) }
    ensures within { IfOk result (λ number. (bounds.least ≤ℤ number) × (number ≤ℤ bounds.greatest)) }
{
    let Some(word) = words.next() else {
        return Err(Kind::Missing);
    };
    number_within(word, bounds)
}

/// The value of a tic that the next word names.
pub fn next_axis(words: &mut Words) -> Result<Axis, Kind>
    ensures { Reads result words.new (next_known axis_of words.old) }
{
    let Some(word) = words.next() else {
        return Err(Kind::Missing);
    };
    axis_of(word).ok_or(Kind::Word)
}

/// What the next word asks for.
pub fn next_aim(words: &mut Words) -> Result<Aim, Kind>
    ensures { Reads result words.new (next_known aim_of words.old) }
{
    let Some(word) = words.next() else {
        return Err(Kind::Missing);
    };
    aim_of(word).ok_or(Kind::Word)
}

/// The operator that the next word is.
pub fn next_op(words: &mut Words) -> Result<Op, Kind>
    ensures { Reads result words.new (next_known op_of words.old) }
{
    let Some(word) = words.next() else {
        return Err(Kind::Missing);
    };
    op_of(word).ok_or(Kind::Word)
}

/// The value of a target that the next word spells.
pub fn next_value(words: &mut Words) -> Result<i64, Kind>
    ensures { Reads result words.new (next_value words.old) }
{
    let Some(word) = words.next() else {
        return Err(Kind::Missing);
    };
    target_value(word)
}

/// Nothing may follow the last word that a command needs.
pub fn complete(mut words: Words) -> Result<(), Kind>
    ensures { result ≡ complete tt words.entry }
{
    match words.next() {
        None => Ok(()),
        Some(_) => Err(Kind::Word),
    }
}

/// The number of a sector or a line.
pub fn number_in(mut words: Words) -> Result<u16, Kind>
    ensures { result ≡ number_in words.entry }
{
    let number = next_number(&mut words, PLACE_NUMBER)?;
    complete(words)?;
    Ok(number as u16)
}
