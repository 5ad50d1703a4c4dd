ghost use Rattle.std.specs.Prelude.{◌≡◌, ◌<◌, ◌⊎◌, take, Result, Err, IsTrue, IfOk, IfErr};
ghost use Rattle.lmp_codec.specs.Header.{header_len, may_stand, is_long, IsHeader};
ghost use Rattle.lmp_codec.specs.Tics.{HoldsTurns};
ghost use Rattle.lmp_codec.specs.Demo.{IsDemo, IsFault, IsVerdict};
ghost use Rattle.lmp_codec.specs.declared.whole.Demo.{Demo};
ghost use Rattle.lmp_codec.specs.declared.fault.DemoFault.{DemoFault};

use crate::fault::DemoFault;
use crate::head::{HEADER_LEN, Header};
use crate::input::Tic;
use crate::spell::{tic_at, tic_len};
use crate::whole::{Demo, Tics};
use std::alloc::Global;

/// The byte that ends a demo.
pub const END_BYTE: u8 = 0x80;

/// How many tics a demo may have.
pub const MOST_TICS: usize = 1_000_000;

/// The demo that the bytes are, or their first fault from the left. The bytes after the end byte are passed over.
pub fn read_demo(alloc: Global, bytes: &[u8]) -> Result<Demo, DemoFault>
    // What is read is written so, and any rest follows it.
    ensures read { IfOk result (λ demo. IsDemo bytes.now demo.header demo.tics) }
    ensures turns { IfOk result (λ demo. HoldsTurns (is_long demo.header) demo.tics) }

    // A fault is that of the bytes, or there was no memory.
    ensures fault { IfErr result (λ fault. (fault ≡ DemoFault.Memory) ⊎ IsFault bytes.now fault) }

    // A demo is read, with any rest, and a fault is answered, unless there is no memory.
    ensures only { (verdict : Result Demo DemoFault) → IsVerdict bytes.now verdict → (result ≡ verdict) ⊎ (result ≡ Err DemoFault.Memory) }
{
    demo_of(alloc, bytes)
}

/// The verdict on a text.
fn demo_of(alloc: Global, text: &[u8]) -> Result<Demo, DemoFault>
    ensures { (result ≡ Err DemoFault.Memory) ⊎ IsVerdict text.now result }
{
    let header = header_of(text)?;
    let tics = tics_of(alloc, text, &header)?;
    Ok(Demo {
        header,
        tics: Tics::from_list(tics),
    })
}

/// The header at the front of a text.
fn header_of(text: &[u8]) -> Result<Header, DemoFault>
    ensures read { IfOk result (λ header. take header_len text.now ≡ header) }
    ensures valid { IfOk result IsHeader }
    ensures fault { IfErr result (IsFault text.now) }
{
    let len = text.len();
    for place in 0..len.min(HEADER_LEN) {
        let byte = text[place];
        if !may_stand(place, byte) {
            return Err(broken(place, byte));
        }
    }
    match text.first_chunk::<HEADER_LEN>() {
        Some(bytes) => Ok(Header::from_bytes(*bytes)),
        None => Err(DemoFault::DemoCut(len)),
    }
}

/// Whether the byte may stand at the place of a header.
fn may_stand(place: usize, byte: u8) -> bool
    ensures { result ≡ may_stand place byte }
{
    match place {
        0 => byte == 109 || byte == 111,
        1 => byte <= 4,
        2 => 1 <= byte && byte <= 9,
        3 => 1 <= byte && byte <= 99,
        5 | 6 => true,
        7 | 9 => byte != 0,
        _ => byte == 0,
    }
}

/// The fault of a byte that breaks its rule at this place of a header.
fn broken(place: usize, byte: u8) -> DemoFault
    requires { place < header_len }
    ensures version { place ≡ 0 → result ≡ DemoFault.DemoVersion byte }
    ensures head { 0 < place → result ≡ DemoFault.DemoHead place }
{
    if place == 0 {
        DemoFault::DemoVersion(byte)
    } else {
        DemoFault::DemoHead(place as u8)
    }
}

/// The tics of a text that begins with this header.
fn tics_of(alloc: Global, text: &[u8], header: &Header) -> Result<Vec<Tic>, DemoFault>
    requires begins { take header_len text.now ≡ header.now }
    requires valid { IsHeader header.now }
    ensures read { IfOk result (λ tics. IsDemo text.now header.now tics.items) }
    ensures fault { IfErr result (λ fault. (fault ≡ DemoFault.Memory) ⊎ IsFault text.now fault) }
{
    let long = header.long();
    let mut tics = Vec::new(alloc);
    let mut at = HEADER_LEN;
    while at < text.len() {
        if text[at] == END_BYTE {
            return Ok(tics);
        }
        if tics.len() == MOST_TICS {
            return Err(DemoFault::DemoLong);
        }
        let Some(tic) = tic_at(text, at, long) else {
            break;
        };
        tics.push(tic)?;
        at += tic_len(long);
    }
    Err(DemoFault::DemoCut(text.len()))
}
