//! Demos of a few tics.

use std::alloc::{AllocError, Global};

/// Version 109, skill 2, episode 1, map 1, no monsters, the first player alone.
pub const HEADER: [u8; 13] = [109, 2, 1, 1, 0, 0, 0, 1, 0, 1, 0, 0, 0];

const END: u8 = 0x80;

/// `HEADER` with another episode and map.
pub fn header_at(episode: u8, map: u8) -> [u8; 13] {
    let mut header = HEADER;
    header[2] = episode;
    header[3] = map;
    header
}

/// The demo of a header and tics, each of them forward, side, turn and buttons as they are written.
pub fn demo(alloc: Global, header: &[u8], tics: &[[u8; 4]]) -> Result<Vec<u8>, AllocError> {
    let mut bytes = header.to_vec(alloc)?;
    for tic in tics {
        bytes.extend_from_slice(tic)?;
    }
    bytes.push(END)?;
    Ok(bytes)
}

/// A demo with `HEADER` of so many tics without input.
pub fn demo_of_zeros(alloc: Global, tics: u32) -> Result<Vec<u8>, AllocError> {
    let mut bytes = HEADER.to_vec(alloc)?;
    for _ in 0..tics {
        bytes.extend_from_slice(&[0; 4])?;
    }
    bytes.push(END)?;
    Ok(bytes)
}
