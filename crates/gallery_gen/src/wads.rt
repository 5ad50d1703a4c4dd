//! The file of a gallery's map.
ghost use Rattle.std.specs.Prelude.{◌≡◌, ◌++◌, length, IfOk, OnOk};
ghost use Rattle.gallery_gen.specs.Wad.{packed_with, unpacked, next_offset, file, entry};

use crate::bytes::push_long;
use doom_edge::Memory;
use std::alloc::Global;
use std::marker::Model;

/// The lumps begin behind the head.
const HEAD_LEN: u32 = 12;

/// Lumps behind each other, and the directory of them, as they grow.
#[derive(Drop)]
pub struct WadWriter {
    lumps: Vec<u8>,
    directory: Vec<u8>,
    entries: u32,
}

impl Model for WadWriter {
    ghost use Rattle.gallery_gen.specs.Wad.{Packed};

    ghost Value = { Packed };

    ghost view = { λ w. record { lumps = w.lumps.items; directory = w.directory.items; entries = w.entries } };
}

/// A length as a field of 32 bits; a longer one is more than there is memory for.
fn length_of(bytes: &[u8]) -> Result<u32, Memory>
    ensures { IfOk result (λ length_now. length_now ≡ length bytes.now) }
{
    let Ok(length) = u32::try_from(bytes.len()) else {
        return Err(Memory);
    };
    Ok(length)
}

// Appends an entry of the directory.
fn push_entry(out: &mut Vec<u8>, offset: u32, name: &[u8; 8], lump: &[u8]) -> Result<(), Memory>
    ensures { OnOk result (out.new.items ≡ out.old.items ++ entry offset (name.now, lump.now)) }
{
    let length = length_of(lump)?;
    push_long(out, offset)?;
    push_long(out, length)?;
    out.extend_from_slice(name)?;
    Ok(())
}

impl WadWriter {
    pub fn new(alloc: Global) -> Self
        ensures { result ≡ unpacked }
    {
        WadWriter {
            lumps: Vec::new(alloc),
            directory: Vec::new(alloc),
            entries: 0,
        }
    }

    // Where the next lump begins.
    fn next_offset(&self) -> Result<u32, Memory>
        ensures { IfOk result (λ offset. offset ≡ next_offset self.now) }
    {
        let length = length_of(&self.lumps)?;
        let Some(offset) = length.checked_add(HEAD_LEN) else {
            return Err(Memory);
        };
        Ok(offset)
    }

    /// Adds a lump behind the others.
    pub fn add(&mut self, name: &[u8; 8], lump: &[u8]) -> Result<(), Memory>
        ensures { OnOk result (self.new ≡ packed_with self.old (name.now, lump.now)) }
    {
        let offset = self.next_offset()?;
        let Some(entries) = self.entries.checked_add(1) else {
            return Err(Memory);
        };
        push_entry(&mut self.directory, offset, name, lump)?;
        self.lumps.extend_from_slice(lump)?;
        self.entries = entries;
        Ok(())
    }

    /// The file.
    pub fn file(&self, alloc: Global) -> Result<Vec<u8>, Memory>
        ensures { IfOk result (λ bytes. bytes.items ≡ file self.now) }
    {
        let offset = self.next_offset()?;
        let mut bytes = Vec::new(alloc);
        bytes.extend_from_slice(b"PWAD")?;
        push_long(&mut bytes, self.entries)?;
        push_long(&mut bytes, offset)?;
        bytes.extend_from_slice(&self.lumps)?;
        bytes.extend_from_slice(&self.directory)?;
        Ok(bytes)
    }
}
