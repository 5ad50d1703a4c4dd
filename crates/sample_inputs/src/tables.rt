//! A play table file whose values a reader can follow by hand: a sine of straight lines, an arc tangent of one slope.

use std::alloc::{AllocError, Global};

/// A kind of thing as the table file writes it: radius and height in fixed point, the first state's length in tics.
#[derive(Clone, Copy)]
pub struct PlanKind {
    pub number: u16,
    pub flags: u16,
    pub radius: i32,
    pub height: i32,
    pub first: i32,
}

/// The blue key: a special thing of radius 20 and height 16 whose first state lasts 10 tics.
const BLUE_KEY: PlanKind = PlanKind {
    number: 5,
    flags: 1,
    radius: 1_310_720,
    height: 1_048_576,
    first: 10,
};

/// The test table file, with the blue key as its one kind.
pub fn play_tables(alloc: Global) -> Result<Vec<u8>, AllocError> {
    play_tables_of(alloc, &[BLUE_KEY])
}

/// The test table file with these kinds.
pub fn play_tables_of(alloc: Global, kinds: &[PlanKind]) -> Result<Vec<u8>, AllocError> {
    let mut bytes = b"PTAB".to_vec(alloc)?;
    let count = u32::try_from(kinds.len()).unwrap_or(u32::MAX);
    bytes.extend_from_slice(&count.to_le_bytes())?;
    push_sines(&mut bytes)?;
    push_arcs(&mut bytes)?;
    push_randoms(&mut bytes)?;
    for kind in kinds {
        push_kind(&mut bytes, kind)?;
    }
    Ok(bytes)
}

/// 10,240 sines: up to 65536 at a quarter turn, down to -65536 at three quarters, and up again, in straight lines.
fn push_sines(bytes: &mut Vec<u8>) -> Result<(), AllocError> {
    for i in 0..10_240i32 {
        bytes.extend_from_slice(&sine(i % 8192).to_le_bytes())?;
    }
    Ok(())
}

fn sine(step: i32) -> i32 {
    if step <= 2048 {
        step.wrapping_mul(32)
    } else if step <= 6144 {
        65_536i32.wrapping_sub(step.wrapping_sub(2048).wrapping_mul(32))
    } else {
        step.wrapping_sub(6144)
            .wrapping_mul(32)
            .wrapping_sub(65_536)
    }
}

/// 2,049 arc tangents, in angle units, in one straight line up to an eighth of a turn.
fn push_arcs(bytes: &mut Vec<u8>) -> Result<(), AllocError> {
    for i in 0..2049u32 {
        bytes.extend_from_slice(&i.wrapping_mul(262_144).to_le_bytes())?;
    }
    Ok(())
}

fn push_randoms(bytes: &mut Vec<u8>) -> Result<(), AllocError> {
    for i in 0..256u32 {
        let number = i.wrapping_mul(97).wrapping_add(13) % 256;
        bytes.push(number as u8)?;
    }
    Ok(())
}

fn push_kind(bytes: &mut Vec<u8>, kind: &PlanKind) -> Result<(), AllocError> {
    bytes.extend_from_slice(&kind.number.to_le_bytes())?;
    bytes.extend_from_slice(&kind.flags.to_le_bytes())?;
    bytes.extend_from_slice(&kind.radius.to_le_bytes())?;
    bytes.extend_from_slice(&kind.height.to_le_bytes())?;
    bytes.extend_from_slice(&kind.first.to_le_bytes())
}
