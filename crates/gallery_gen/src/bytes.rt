//! Numbers as bytes, the low byte first.
ghost use Rattle.std.specs.Prelude.{◌≡◌, ◌++◌, OnOk};
ghost use Rattle.byteorder.specs.Endian.{little_bytes};
ghost use Rattle.gallery_gen.specs.Lumps.{word, signed, zeros};

use byteorder::{ByteOrder, LittleEndian};
use doom_edge::Memory;

/// Appends a word of 16 bits.
pub fn push_word(out: &mut Vec<u8>, n: u16) -> Result<(), Memory>
    ensures { OnOk result (out.new.items ≡ out.old.items ++ word n) }
{
    let mut bytes = [0; 2];
    LittleEndian::write_u16(&mut bytes, n);
    out.extend_from_slice(&bytes)?;
    Ok(())
}

/// Appends a signed word of 16 bits.
pub fn push_signed(out: &mut Vec<u8>, n: i16) -> Result<(), Memory>
    ensures { OnOk result (out.new.items ≡ out.old.items ++ signed n) }
{
    push_word(out, n.cast_unsigned())
}

/// Appends a word of 32 bits.
pub fn push_long(out: &mut Vec<u8>, n: u32) -> Result<(), Memory>
    ensures { OnOk result (out.new.items ≡ out.old.items ++ little_bytes 4 n) }
{
    let mut bytes = [0; 4];
    LittleEndian::write_u32(&mut bytes, n);
    out.extend_from_slice(&bytes)?;
    Ok(())
}

/// Appends so many zeros.
pub fn push_zeros(out: &mut Vec<u8>, count: u32) -> Result<(), Memory>
    ensures { OnOk result (out.new.items ≡ out.old.items ++ zeros count) }
{
    for _zero in 0..count {
        out.push(0)?;
    }
    Ok(())
}
