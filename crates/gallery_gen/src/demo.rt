//! The demo of a gallery.
ghost use Rattle.std.specs.Prelude.{◌≡◌, ◌++◌, [], ◌∷◌, IfOk, OnOk};
ghost use Rattle.std.specs.List.{flat_map};
ghost use Rattle.gallery_gen.specs.Gallery.{tic_of, demo_head};

use doom_edge::Memory;
use std::alloc::Global;

/// Version 109, at the third skill on the first map, alone and without monsters.
const HEAD: [u8; 13] = [109, 2, 1, 1, 0, 0, 0, 1, 0, 1, 0, 0, 0];

const END: u8 = 128;

const AHEAD: [u8; 4] = [50, 25, 0, 50];

/// 0, 24, -24 and 0.
const ASIDE: [u8; 4] = [0, 24, 232, 0];

/// 0, 0, 2 and -2.
const TURNS: [u8; 4] = [0, 0, 2, 254];

fn tic_of(drawn: u16) -> [u8; 4]
    ensures { result ≡ tic_of drawn }
{
    [
        AHEAD[usize::from(drawn % 4)],
        ASIDE[usize::from(drawn / 4 % 4)],
        TURNS[usize::from(drawn / 16 % 4)],
        (drawn / 64 % 2 * 2) as u8,
    ]
}

fn push_tics(out: &mut Vec<u8>, drawn: &[u16]) -> Result<(), Memory>
    ensures { OnOk result (out.new.items ≡ out.old.items ++ flat_map tic_of drawn.now) }
{
    for number in drawn {
        out.extend_from_slice(&tic_of(*number))?;
    }
    Ok(())
}

/// The demo whose tics are those of numbers that were drawn.
pub fn demo_with(alloc: Global, drawn: &[u16]) -> Result<Vec<u8>, Memory>
    ensures { IfOk result (λ bytes. bytes.items ≡ demo_head ++ flat_map tic_of drawn.now ++ 128 ∷ []) }
{
    let mut bytes = Vec::new(alloc);
    bytes.extend_from_slice(&HEAD)?;
    push_tics(&mut bytes, drawn)?;
    bytes.push(END)?;
    Ok(bytes)
}
