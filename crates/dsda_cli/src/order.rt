//! The order file of `sim`.
ghost use Rattle.std.specs.Prelude.{◌≡◌, ◌<◌, ◌≤◌, [], ◌∷◌, ◌++◌, length, All, Some, None, Err, if◌then◌else◌, IfOk, OnOk, OnErr, IfSome};
ghost use Rattle.std.specs.List.{position, position_or_len};
ghost use Rattle.dsda_cli.specs.Order.{is_blank, begins_word, word_from, hand_from, names_hand, order_of, IsOrder};

use build_script::decimal_number;
use std::alloc::Global;

/// Why an order file is none.
#[derive(Clone, Copy, Debug, PartialEq, Eq)]
pub enum OrderFault {
    /// The place of the byte at which the first word begins that is no hand below 64.
    At(usize),
    /// There was no memory.
    Memory,
}

/// The greatest hand.
const LAST_HAND: u64 = 63;

fn is_blank(byte: u8) -> bool
    ensures { result ≡ is_blank byte }
{
    matches!(byte, b' ' | b'\t' | b'\n' | b'\r')
}

/// Whether a word begins at a place.
fn begins_word(bytes: &[u8], at: usize) -> bool
    requires { at < length bytes.now }
    ensures { result ≡ begins_word bytes.now at }
{
    if is_blank(bytes[at]) {
        return false;
    }
    at == 0 || is_blank(bytes[at - 1])
}

/// Where the first blank stands.
fn first_blank(text: &[u8]) -> Option<usize>
    ensures { result ≡ position is_blank text.now }
{
    text.iter().position(|byte| is_blank(*byte))
}

/// How many bytes the word takes with which a text begins.
#[tactic(auto, using(build_script::proofs::TextLemmas::position_or))]
fn word_len(text: &[u8]) -> usize
    ensures within { result ≤ length text.now }
    ensures value { result ≡ position_or_len is_blank text.now }
{
    first_blank(text).unwrap_or(text.len())
}

/// The word that begins at a place.
fn word_from(bytes: &[u8], at: usize) -> &[u8]
    requires { at < length bytes.now }
    ensures { result.now ≡ word_from bytes.now at }
{
    let rest = &bytes[at..];
    &rest[..word_len(rest)]
}

/// The hand that the word at a place names.
fn hand_at(bytes: &[u8], at: usize) -> Option<u8>
    requires { at < length bytes.now }
    ensures hand { result ≡ (if names_hand bytes.now at then Some (hand_from bytes.now at) else None) }
    ensures within { IfSome result (λ hand. hand < 64) }
{
    let hand = decimal_number(word_from(bytes, at), 2)?;
    if hand > LAST_HAND {
        return None;
    }
    Some(hand as u8)
}

fn append(hands: &mut Vec<u8>, hand: u8) -> Result<(), OrderFault>
    ensures appended { OnOk result (hands.new.items ≡ hands.old.items ++ hand ∷ []) }
    ensures memory { OnErr result (result ≡ Err OrderFault.Memory) }
{
    hands.push(hand).map_err(|_| OrderFault::Memory)
}

/// The hands that an order file names, in their order: numbers 0 to 63 of 1 or 2 digits, with blanks between them.
///
/// # Errors
///
/// Where the first word begins that is none.
pub fn read_order(alloc: Global, bytes: &[u8]) -> Result<Vec<u8>, OrderFault>
    ensures order { IsOrder result bytes.now }
    ensures within { IfOk result (λ hands. All (λ hand. hand < 64) hands.items) }
{
    let mut hands = Vec::new(alloc);
    for at in 0..bytes.len() {
        if begins_word(bytes, at) {
            match hand_at(bytes, at) {
                Some(hand) => append(&mut hands, hand)?,
                None => return Err(OrderFault::At(at)),
            }
        }
    }
    Ok(hands)
}
