//! The play tables of a gallery.
ghost use Rattle.std.specs.Prelude.{◌≡◌, ◌<◌, ◌++◌, IfOk, OnOk};
ghost use Rattle.byteorder.specs.Endian.{little_bytes};
ghost use Rattle.gallery_gen.specs.Tables.{sine_by, sine_at, sines, arcs, random_numbers, key, tables_bytes};

use crate::bytes::{push_long, push_word};
use doom_edge::Memory;
use std::alloc::Global;

const SINES: u32 = 10_240;

const TURN: u32 = 8192;

const ARCS: u32 = 2049;

const RANDOM_NUMBERS: u32 = 256;

// The sine of a part of a turn.
fn sine_by(part: u32) -> i32
    requires { part < 8192 }
    ensures { result ≡ sine_by part }
{
    let rise = (32 * part) as i32;
    if part <= 2048 {
        rise
    } else if part <= 6144 {
        262_144 - rise - 131_072
    } else {
        rise - 262_144
    }
}

#[tactic(auto, using(crate::proofs::Each::each_more), unfolding(crate::specs::Tables::sines, crate::specs::Tables::arcs, crate::specs::Tables::random_numbers))]
fn push_sines(out: &mut Vec<u8>, count: u32) -> Result<(), Memory>
    ensures { OnOk result (out.new.items ≡ out.old.items ++ sines count) }
{
    for i in 0..count {
        push_long(out, sine_by(i % TURN).cast_unsigned())?;
    }
    Ok(())
}

#[tactic(auto, using(crate::proofs::Each::each_more), unfolding(crate::specs::Tables::sines, crate::specs::Tables::arcs, crate::specs::Tables::random_numbers))]
fn push_arcs(out: &mut Vec<u8>, count: u32) -> Result<(), Memory>
    requires { count < 10000 }
    ensures { OnOk result (out.new.items ≡ out.old.items ++ arcs count) }
{
    for i in 0..count {
        push_long(out, i * 262_144)?;
    }
    Ok(())
}

#[tactic(auto, using(crate::proofs::Each::each_more), unfolding(crate::specs::Tables::sines, crate::specs::Tables::arcs, crate::specs::Tables::random_numbers))]
fn push_random(out: &mut Vec<u8>, count: u32) -> Result<(), Memory>
    requires { count < 10000 }
    ensures { OnOk result (out.new.items ≡ out.old.items ++ random_numbers count) }
{
    for i in 0..count {
        out.push(((97 * i + 13) % 256) as u8)?;
    }
    Ok(())
}

fn push_key(out: &mut Vec<u8>) -> Result<(), Memory>
    ensures { OnOk result (out.new.items ≡ out.old.items ++ key) }
{
    push_word(out, 5)?;
    push_word(out, 1)?;
    push_long(out, 1_310_720)?;
    push_long(out, 1_048_576)?;
    push_long(out, 10)
}

/// The tables.
#[tactic(auto, unfolding(crate::specs::Tables::tables_bytes))]
pub fn tables(alloc: Global) -> Result<Vec<u8>, Memory>
    ensures { IfOk result (λ bytes. bytes.items ≡ tables_bytes) }
{
    let mut bytes = Vec::new(alloc);
    bytes.extend_from_slice(b"PTAB")?;
    push_long(&mut bytes, 1)?;
    push_sines(&mut bytes, SINES)?;
    push_arcs(&mut bytes, ARCS)?;
    push_random(&mut bytes, RANDOM_NUMBERS)?;
    push_key(&mut bytes)?;
    Ok(bytes)
}
