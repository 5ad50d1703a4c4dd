//! Reads the file of the play tables.
ghost use Rattle.std.specs.Prelude.{◌≡◌, ℕ, ◌+◌, ◌*◌, ◌<◌, ◌≤◌, length, IfOk, OnOk, IfErr, slice_index, None, Some, ◌==◌};
ghost use Rattle.std.specs.List.{list_any};
ghost use Rattle.fixed_angle.specs.FirstFault.{FirstFault, for_each};
ghost use Rattle.fixed_angle.specs.TableFile.{word_at, long_at, signed_at, entries, kind_at, kind_count, kinds_of, head_conditions, kind_conditions, table_conditions, IsCause};
ghost use Rattle.fixed_angle.specs.Tables.{IsNew};

use crate::{Kind, TabFault};
use byteorder::{ByteOrder, LittleEndian};
use std::alloc::{AllocError, Global};

// Where each table begins, and how many entries it has. A kind has 16 bytes.
pub const SINES_AT: usize = 8;

pub const SINES: usize = 10240;

pub const ARCS_AT: usize = 40968;

pub const ARCS: usize = 2049;

pub const DRAWS_AT: usize = 49164;

pub const DRAWS: usize = 256;

const KINDS_AT: usize = 49420;

const KIND_LEN: usize = 16;

const MOST_KINDS: u32 = 1024;

fn word(bytes: &[u8], at: usize) -> u16
    requires { at + 2 ≤ length bytes.now }
    ensures { result ≡ word_at bytes.now at }
{
    LittleEndian::read_u16(&bytes[at..])
}

fn long(bytes: &[u8], at: usize) -> u32
    requires { at + 4 ≤ length bytes.now }
    ensures { result ≡ long_at bytes.now at }
{
    LittleEndian::read_u32(&bytes[at..])
}

fn signed(bytes: &[u8], at: usize) -> i32
    requires { at + 4 ≤ length bytes.now }
    ensures { result ≡ signed_at bytes.now at }
{
    LittleEndian::read_i32(&bytes[at..])
}

fn kind(bytes: &[u8], at: usize) -> Kind
    requires { at + 16 ≤ length bytes.now }
    ensures { result ≡ kind_at bytes.now at }
{
    Kind {
        number: word(bytes, at),
        flags: word(bytes, at + 2),
        radius: signed(bytes, at + 4),
        height: signed(bytes, at + 8),
        first: signed(bytes, at + 12),
    }
}

/// The signed numbers of four bytes from a place on.
#[tactic(auto, unfolding(crate::specs::TableFile::entries))]
pub fn signed_entries(
    alloc: Global,
    bytes: &[u8],
    start: usize,
    count: usize,
) -> Result<Vec<i32>, AllocError>
    requires { start + 4 * count ≤ length bytes.now }
    ensures { IfOk result (λ numbers. numbers.items ≡ entries (λ i. signed_at bytes.now (start + 4 * i)) count) }
{
    (0..count)
        .map(|i| signed(bytes, start + 4 * i))
        .collect(alloc)
}

/// The unsigned ones.
#[tactic(auto, unfolding(crate::specs::TableFile::entries))]
pub fn long_entries(
    alloc: Global,
    bytes: &[u8],
    start: usize,
    count: usize,
) -> Result<Vec<u32>, AllocError>
    requires { start + 4 * count ≤ length bytes.now }
    ensures { IfOk result (λ numbers. numbers.items ≡ entries (λ i. long_at bytes.now (start + 4 * i)) count) }
{
    (0..count)
        .map(|i| long(bytes, start + 4 * i))
        .collect(alloc)
}

/// The bytes from a place on.
#[tactic(auto, unfolding(crate::specs::TableFile::entries))]
pub fn byte_entries(
    alloc: Global,
    bytes: &[u8],
    start: usize,
    count: usize,
) -> Result<Vec<u8>, AllocError>
    requires { start + count ≤ length bytes.now }
    ensures { IfOk result (λ numbers. numbers.items ≡ entries (λ i. slice_index bytes.now (start + i)) count) }
{
    (0..count).map(|i| bytes[start + i]).collect(alloc)
}

/// The kinds, in the order of the file.
#[tactic(auto, unfolding(crate::specs::TableFile::entries))]
fn kind_entries(
    alloc: Global,
    bytes: &[u8],
    start: usize,
    count: usize,
) -> Result<Vec<Kind>, AllocError>
    requires { start + 16 * count ≤ length bytes.now }
    ensures { IfOk result (λ kinds. kinds.items ≡ entries (λ i. kind_at bytes.now (start + 16 * i)) count) }
{
    (0..count)
        .map(|i| kind(bytes, start + KIND_LEN * i))
        .collect(alloc)
}

/// The number of kinds of a file whose head and length are right.
fn judged_count(bytes: &[u8]) -> Result<usize, TabFault>
    ensures count { IfOk result (λ count. count ≡ kind_count bytes.now) }
    ensures few { IfOk result (λ count. count ≤ 1024) }
    ensures sound { OnOk result (FirstFault (head_conditions bytes.now) None) }
    ensures fault { IfErr result (λ fault. FirstFault (head_conditions bytes.now) (Some fault)) }
{
    let [b'P', b'T', b'A', b'B', _, _, _, _, ..] = bytes else {
        return Err(TabFault::TabHead);
    };
    let count = long(bytes, 4);
    if count > MOST_KINDS {
        return Err(TabFault::TabHead);
    }
    let count = count as usize;
    if bytes.len() != KINDS_AT + KIND_LEN * count {
        return Err(TabFault::TabLength);
    }
    Ok(count)
}

/// Whether one of the kinds has a number.
fn has_number(kinds: &[Kind], number: u16) -> bool
    ensures { result ≡ list_any (λ kind. kind.number == number) kinds.now }
{
    kinds.iter().any(|kind| kind.number == number)
}

/// The fault of a kind whose number an earlier one has.
fn kind_fault(kinds: &[Kind], i: usize) -> Option<TabFault>
    requires at { i < length kinds.now }
    requires few { length kinds.now ≤ 1024 }
    ensures { FirstFault (kind_conditions kinds.now i) result }
{
    if has_number(&kinds[..i], kinds[i].number) {
        Some(TabFault::TabActor(i as u32))
    } else {
        None
    }
}

/// The first kind whose number an earlier one has.
fn kinds_fault(kinds: &[Kind]) -> Option<TabFault>
    requires { length kinds.now ≤ 1024 }
    ensures { FirstFault (for_each (length kinds.now) (kind_conditions kinds.now)) result }
{
    for i in 0..kinds.len() {
        if let Some(fault) = kind_fault(kinds, i) {
            return Some(fault);
        }
    }
    None
}

/// The kinds of a file that has nothing wrong with it.
pub fn read_kinds(alloc: Global, bytes: &[u8]) -> Result<Vec<Kind>, TabFault>
    ensures kinds { IfOk result (λ kinds. kinds.items ≡ kinds_of bytes.now) }
    ensures new { IfOk result (λ kinds. (i : ℕ) → i < length kinds.items → IsNew kinds.items i) }
    ensures sound { OnOk result (FirstFault (table_conditions bytes.now) None) }
    ensures room { OnOk result (49420 ≤ length bytes.now) }
    ensures fault { IfErr result (IsCause bytes.now) }
{
    let count = judged_count(bytes)?;
    let kinds = kind_entries(alloc, bytes, KINDS_AT, count)?;
    match kinds_fault(&kinds) {
        Some(fault) => Err(fault),
        None => Ok(kinds),
    }
}
