//! The head of a WAD file and the entries of its directory.

ghost use Rattle.std.specs.Prelude.{◌≡◌, ◌↔◌, ◌+◌, ◌<◌, ◌≤◌, ◌^◌, length, IsTrue, MatchOption};
ghost use Rattle.fixed_angle.specs.FirstFault.{FirstFault};
ghost use Rattle.wad_lumps.specs.Spelled.{long_at};
ghost use Rattle.wad_lumps.specs.Directory.{HasHead, HasDirectory, HasLump, IsWad, entry_count, directory_start, entry_at, file_conditions, name_of, span_of};

use crate::fault::WadFault;
use byteorder::{ByteOrder, LittleEndian};

/// The first number of 32 bits that is negative where it is read as signed.
const NEGATIVE: usize = 1 << 31;

/// The bytes of an entry.
const ENTRY: usize = 16;

/// The number of 32 bits at a place.
#[tactic(auto, unfolding(crate::specs::Spelled::long_at))]
fn number_at(bytes: &[u8], at: usize) -> usize
    requires { at + 4 ≤ length bytes.now }
    ensures value { result ≡ long_at bytes.now at }
    ensures bound { result < 2 ^ 32 }
{
    LittleEndian::read_u32(&bytes[at..]) as usize
}

/// Whether the file begins with a sound head.
pub fn has_head(bytes: &[u8]) -> bool
    ensures { IsTrue result ↔ HasHead bytes.now }
{
    bytes.len() >= 12
        && (bytes.starts_with(b"IWAD") || bytes.starts_with(b"PWAD"))
        && number_at(bytes, 4) < NEGATIVE
        && number_at(bytes, 8) < NEGATIVE
}

/// Whether the directory lies in the file.
pub fn has_directory(bytes: &[u8]) -> bool
    requires { HasHead bytes.now }
    ensures { IsTrue result ↔ HasDirectory bytes.now }
{
    number_at(bytes, 8) + ENTRY * number_at(bytes, 4) <= bytes.len()
}

/// The first fault of the head and the directory.
pub fn file_fault(bytes: &[u8]) -> Option<WadFault>
    ensures { FirstFault (file_conditions bytes.now) result }
{
    if !has_head(bytes) {
        return Some(WadFault::WadHead);
    }
    if !has_directory(bytes) {
        return Some(WadFault::WadDir);
    }
    None
}

/// How many entries the directory has.
pub fn entry_total(bytes: &[u8]) -> usize
    requires { IsWad bytes.now }
    ensures { result ≡ entry_count bytes.now }
{
    number_at(bytes, 4)
}

/// Where an entry stands in the file.
fn place_of(bytes: &[u8], i: usize) -> usize
    requires wad { IsWad bytes.now }
    requires there { i < entry_count bytes.now }
    ensures place { result ≡ entry_at bytes.now i }
    ensures within { result + 16 ≤ length bytes.now }
{
    number_at(bytes, 8) + ENTRY * i
}

/// Whether an entry has the name, in all its eight bytes.
pub fn is_named(bytes: &[u8], i: usize, name: &[u8; 8]) -> bool
    requires wad { IsWad bytes.now }
    requires there { i < entry_count bytes.now }
    ensures { IsTrue result ↔ (name_of bytes.now i ≡ name.now) }
{
    let at = place_of(bytes, i);
    bytes[at + 8..at + 16] == name[..]
}

/// The span of an entry's lump, where the entry is there and its lump lies in the file.
pub fn lump(bytes: &[u8], i: usize) -> Option<(usize, usize)>
    requires { IsWad bytes.now }
    ensures { MatchOption result (HasLump bytes.now i → ⊥)
        (λ span. HasLump bytes.now i × (span ≡ span_of bytes.now i)) }
{
    if i >= entry_total(bytes) {
        return None;
    }
    let at = place_of(bytes, i);
    let place = number_at(bytes, at);
    let size = number_at(bytes, at + 4);
    if place < NEGATIVE && size < NEGATIVE && place + size <= bytes.len() {
        Some((place, size))
    } else {
        None
    }
}
