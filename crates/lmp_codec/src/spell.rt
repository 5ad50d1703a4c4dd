ghost use Rattle.std.specs.Prelude.{◌≡◌, ◌≢◌, ◌+◌, ◌<◌, ◌≤◌, ◌/◌, ◌%◌, ◌++◌, true, false, length, take, slice_index, [], ◌∷◌, IfSome, IfNone, OnOk};
ghost use Rattle.lmp_codec.specs.Demo.{FitsBytes, tic_len, tic_bytes, end_byte};

use crate::input::Tic;
use std::alloc::AllocError;

/// How many bytes a tic has: one more in a long demo, for its turn.
pub fn tic_len(long: bool) -> usize
    ensures { result ≡ tic_len long }
{
    if long { 5 } else { 4 }
}

/// Appends the bytes of a tic.
pub fn push_tic(bytes: &mut Vec<u8>, long: bool, tic: Tic) -> Result<(), AllocError>
    ensures { OnOk result (bytes.new.items ≡ bytes.old.items ++ tic_bytes long tic) }
{
    let forward = tic.forward.cast_unsigned();
    let side = tic.side.cast_unsigned();
    let low = (tic.turn % 256) as u8;
    let high = (tic.turn / 256) as u8;
    if long {
        bytes.extend_from_slice(&[forward, side, low, high, tic.buttons])
    } else {
        bytes.extend_from_slice(&[forward, side, high, tic.buttons])
    }
}

/// The tic of these bytes and this turn, where the first byte is not the end byte.
fn spelled_tic(forward: u8, side: u8, turn: u16, buttons: u8) -> Tic
    requires { forward ≢ end_byte }
    ensures long { tic_bytes true result ≡ forward ∷ side ∷ turn % 256 ∷ turn / 256 ∷ buttons ∷ [] }
    ensures short { tic_bytes false result ≡ forward ∷ side ∷ turn / 256 ∷ buttons ∷ [] }
    ensures turn { result.turn ≡ turn }
    ensures fits { FitsBytes true result }
{
    Tic::of_numbers(forward.cast_signed(), side.cast_signed(), turn, buttons)
}

/// The tic of a long demo that these bytes begin with, or `None` where they end within it.
fn long_tic(bytes: &[u8]) -> Option<Tic>
    requires { slice_index bytes.now 0 ≢ end_byte }
    ensures spelled { IfSome result (λ tic. take 5 bytes.now ≡ tic_bytes true tic) }
    ensures whole { IfSome result (λ _. 5 ≤ length bytes.now) }
    ensures fits { IfSome result (FitsBytes true) }
    ensures cut { IfNone result (length bytes.now < 5) }
{
    match bytes {
        [forward, side, low, high, buttons, ..] => {
            let turn = u16::from(*low) + 256 * u16::from(*high);
            Some(spelled_tic(*forward, *side, turn, *buttons))
        }
        _ => None,
    }
}

/// The tic of a short demo that these bytes begin with, or `None` where they end within it.
fn short_tic(bytes: &[u8]) -> Option<Tic>
    requires { slice_index bytes.now 0 ≢ end_byte }
    ensures spelled { IfSome result (λ tic. take 4 bytes.now ≡ tic_bytes false tic) }
    ensures whole { IfSome result (λ _. 4 ≤ length bytes.now) }
    ensures fits { IfSome result (FitsBytes false) }
    ensures cut { IfNone result (length bytes.now < 4) }
{
    match bytes {
        [forward, side, turn, buttons, ..] => Some(spelled_tic(
            *forward,
            *side,
            256 * u16::from(*turn),
            *buttons,
        )),
        _ => None,
    }
}

/// The tic at this place of a text, or `None` where the text ends within it.
pub fn tic_at(text: &[u8], at: usize, long: bool) -> Option<Tic>
    requires there { at < length text.now }
    requires goes_on { slice_index text.now at ≢ end_byte }
    ensures spelled { IfSome result (λ tic. take (at + tic_len long) text.now ≡ take at text.now ++ tic_bytes long tic) }
    ensures whole { IfSome result (λ _. at + tic_len long ≤ length text.now) }
    ensures fits { IfSome result (FitsBytes long) }
    ensures cut { IfNone result (length text.now < at + tic_len long) }
{
    let rest = &text[at..];
    if long {
        long_tic(rest)
    } else {
        short_tic(rest)
    }
}
