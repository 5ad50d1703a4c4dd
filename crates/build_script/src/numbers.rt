// The numbers of a script: how a word spells one, and the bounds that each has.
ghost use Rattle.std.specs.Prelude.{◌≡◌, ◌≤◌, ◌≤ℤ◌, IfOk, Some, None, if◌then◌else◌};
ghost use Rattle.std.specs.List.{list_all};
ghost use Rattle.std.specs.Char.{is_ascii_digit};
ghost use Rattle.std.specs.Str.Parse.{digits_value};
ghost use Rattle.build_script.specs.Numbers.{digits_in, in_bounds, is_decimal, is_number, number_of, number_within, units_within, value_within};
ghost use Rattle.build_script.specs.Steps.{value_bounds};

use crate::fault::Kind;
use std::str;

/// A number's bounds, which it may reach.
#[derive(Clone, Copy)]
pub struct Bounds {
    pub least: i64,
    pub greatest: i64,
}

/// The most digits of a number.
const MOST_DIGITS: usize = 18;

/// What follows the minus that a word may begin with.
fn digits_in(word: &[u8]) -> &[u8]
    ensures { result.now ≡ digits_in word.now }
{
    word.strip_prefix(b"-").unwrap_or(word)
}

/// Whether each byte is a decimal digit.
fn are_digits(bytes: &[u8]) -> bool
    ensures { result ≡ list_all is_ascii_digit bytes.now }
{
    bytes.iter().all(|byte| byte.is_ascii_digit())
}

/// The number that a word spells in decimal digits alone, so many at most.
pub fn decimal_number(word: &[u8], digits: usize) -> Option<u64>
    requires { digits ≤ 18 }
    ensures { result ≡ (if is_decimal digits word.now then Some (digits_value 10 word.now) else None) }
{
    if word.len() > digits || !are_digits(word) {
        return None;
    }
    let Ok(text) = str::from_utf8(word) else {
        return None;
    };
    text.parse().ok()
}

/// The number that a word spells, by a minus or none and 1 to 18 digits.
fn number_of(word: &[u8]) -> Option<i64>
    ensures { result ≡ (if is_number word.now then Some (number_of word.now) else None) }
{
    let digits = digits_in(word);
    if digits.len() > MOST_DIGITS || !are_digits(digits) {
        return None;
    }
    let Ok(text) = str::from_utf8(word) else {
        return None;
    };
    text.parse().ok()
}

/// A number, if it lies within its bounds.
fn in_bounds(number: i64, bounds: Bounds) -> Result<i64, Kind>
    ensures value { result ≡ in_bounds bounds number }
    ensures within { IfOk result (λ within. (bounds.least ≤ℤ within) × (within ≤ℤ bounds.greatest)) }
{
    if number < bounds.least || bounds.greatest < number {
        return Err(Kind::Range);
    }
    Ok(number)
}

/// The number that a word spells, within its bounds.
pub fn number_within(word: &[u8], bounds: Bounds) -> Result<i64, Kind>
    ensures value { result ≡ number_within bounds word.now }
    ensures within { IfOk result (λ number. (bounds.least ≤ℤ number) × (number ≤ℤ bounds.greatest)) }
{
    match number_of(word) {
        Some(number) => in_bounds(number, bounds),
        None => Err(Kind::Number),
    }
}

/// The least and the greatest value of a target.
const VALUE: Bounds = Bounds {
    least: -(1 << 31),
    greatest: (1 << 32) - 1,
};

/// A value of one map unit.
const UNIT: i64 = 65_536;

/// The least and the greatest number of map units whose value is one of a target.
const UNITS: Bounds = Bounds {
    least: -32_768,
    greatest: 65_535,
};

/// The value of so many map units.
fn units_value(word: &[u8]) -> Result<i64, Kind>
    ensures { result ≡ units_within value_bounds word.now }
{
    let units = number_within(word, UNITS)?;
    Ok(units * UNIT)
}

/// The value of a target that a word spells: a number, or one of map units where a `u` follows it.
pub fn target_value(word: &[u8]) -> Result<i64, Kind>
    ensures { result ≡ value_within value_bounds word.now }
{
    match word.strip_suffix(b"u") {
        Some(units) => units_value(units),
        None => number_within(word, VALUE),
    }
}
