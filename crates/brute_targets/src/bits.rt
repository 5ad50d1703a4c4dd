//! Line bits: bit i of a number says that target i is a line that acted.

ghost use Rattle.std.specs.Prelude.{◌≡◌, ℕ, ◌<◌, Bool, ◌&&◌, ◌||◌, nat_eq};
ghost use Rattle.brute_targets.specs.Lines.{has_bit};

/// Whether bit `i` is set.
pub(crate) fn has_bit(lines: u16, i: usize) -> bool
    requires { i < 16 }
    ensures { result ≡ has_bit lines i }
{
    lines >> i & 1 == 1
}

/// Bit `i` alone where the target's line acts, and else none.
pub(crate) fn line_bit(acts: bool, i: usize) -> u16
    requires { i < 16 }
    ensures { (j : ℕ) → has_bit result j ≡ (acts && nat_eq j i) }
{
    if acts { 1 << i } else { 0 }
}

/// The line bits of some tics and of more tics after them.
pub fn join_lines(first: u16, more: u16) -> u16
    ensures { (i : ℕ) → has_bit result i ≡ (has_bit first i || has_bit more i) }
{
    first | more
}
