ghost use Rattle.std.specs.Prelude.{◌≡◌, ◌≤◌, length, IfOk};
ghost use Rattle.lmp_codec.specs.Header.{is_long};
ghost use Rattle.lmp_codec.specs.Tics.{HoldsTurns};
ghost use Rattle.lmp_codec.specs.Demo.{most_tics, written};

use crate::fault::Memory;
use crate::head::Header;
use crate::input::Tic;
use crate::read::END_BYTE;
use crate::spell::{push_tic, tic_len};
use std::alloc::Global;

/// The written form of a demo: the header, the bytes of each tic (four, or five in a long demo), and the end byte.
pub fn write_demo(alloc: Global, header: &Header, tics: &[Tic]) -> Result<Vec<u8>, Memory>
    requires few { length tics.now ≤ most_tics }

    // A demo of version 109 holds no low byte of a turn.
    requires turns { HoldsTurns (is_long header.now) tics.now }
    ensures { IfOk result (λ bytes. bytes.items ≡ written header.now tics.now) }
{
    let long = header.long();
    let front = header.bytes();
    let mut bytes = Vec::with_capacity(alloc, front.len() + tic_len(long) * tics.len() + 1)?;
    bytes.extend_from_slice(front)?;
    for tic in tics {
        push_tic(&mut bytes, long, *tic)?;
    }
    bytes.push(END_BYTE)?;
    Ok(bytes)
}
