//! Rows of numbers as text: a table of tuples costs the prover a second for each few of its rows, a text nothing.

use std::alloc::{AllocError, Global};
use std::process::Abort;

/// The numbers of a line. A word that is none becomes one that no test expects.
pub(crate) fn numbers(alloc: Global, line: &str) -> Result<Vec<i64>, AllocError> {
    let mut numbers = Vec::new(alloc);
    for word in line.split_whitespace() {
        numbers.push(word.parse().unwrap_or(i64::MIN))?;
    }
    Ok(numbers)
}

/// The number at a place of a row.
pub(crate) fn at(row: &[i64], place: usize) -> i64 {
    row.get(place).copied().unwrap_or(i64::MIN)
}

/// The same, of 32 bits with a sign.
pub(crate) fn int(row: &[i64], place: usize) -> i32 {
    i32::try_from(at(row, place)).unwrap_or(i32::MIN)
}

/// The same, of 32 bits without one.
pub(crate) fn word(row: &[i64], place: usize) -> u32 {
    u32::try_from(at(row, place)).unwrap_or(u32::MAX)
}

/// The same, of 16 bits without one.
pub(crate) fn short(row: &[i64], place: usize) -> u16 {
    u16::try_from(at(row, place)).unwrap_or(u16::MAX)
}

/// The same, of 16 bits with a sign.
pub(crate) fn signed(row: &[i64], place: usize) -> i16 {
    i16::try_from(at(row, place)).unwrap_or(i16::MIN)
}

/// A number of steps, as a row has it.
pub(crate) fn counted(steps: u64) -> i64 {
    i64::try_from(steps).unwrap_or(i64::MAX)
}

/// What stands behind the first so many numbers of a row.
pub(crate) fn behind(row: &[i64], count: usize) -> &[i64] {
    row.get(count..).unwrap_or(&[])
}

/// Asserts that a row comes to what it should. One assert here is cheaper to prove than one in each loop.
pub(crate) fn expect(rt: &impl Abort, line: &str, found: &[i64], wanted: &[i64]) {
    assert_eq!(rt; found, wanted, "{line}");
}
