//! Arithmetic on fixed-point numbers: 65536 is one unit. Nothing here stops at a bound by itself: what
//! does not fit in 32 bits wraps, except in `fixed_div`.
ghost use Rattle.std.specs.Prelude.{◌≡◌, ◌≤◌, ◌^◌, ◌%◌, ℤ, ◌≤ℤ◌, ◌<ℤ◌};
ghost use Rattle.std.specs.Int.{w64};
ghost use Rattle.std.specs.Prelude.{FitsSigned};
ghost use Rattle.fixed_angle.specs.Fixed.{mul, div, slope, aprox, wrap32};

/// The product of two fixed-point numbers, rounded down, in the low 32 bits.
pub fn fixed_mul(a: i32, b: i32) -> i32
    ensures { result ≡ mul a b }
{
    low_word((i64::from(a) * i64::from(b)) >> 16)
}

/// The quotient of two fixed-point numbers, rounded toward zero. Where `|a| >> 14` is at least `|b|`, which
/// a division by zero is, it is the greatest number, or the least one where the signs differ.
pub fn fixed_div(a: i32, b: i32) -> i32
    ensures { result ≡ div a b }
{
    if a.unsigned_abs() / 16384 >= b.unsigned_abs() {
        if (a < 0) != (b < 0) {
            i32::MIN
        } else {
            i32::MAX
        }
    } else {
        (i64::from(a) * 65536 / i64::from(b)) as i32
    }
}

/// The place of the slope `num / den` in the table of arcs, at most 2048.
pub fn slope_div(num: u32, den: u32) -> u32
    ensures value { result ≡ slope num den }
    ensures below { result ≤ 2048 }
{
    if den < 512 {
        2048
    } else {
        ((num << 3) / (den >> 8)).min(2048)
    }
}

/// About the length of a way, from its parts: the two without their signs, less half of the lesser one.
pub fn aprox_distance(dx: i32, dy: i32) -> i32
    ensures { result ≡ aprox dx dy }
{
    let dx = dx.unsigned_abs();
    let dy = dy.unsigned_abs();
    let lesser = dx.min(dy);
    (dx.max(dy) + (lesser - lesser / 2)).cast_signed()
}

/// The low 32 bits of a number, with the sign that they have.
fn low_word(number: i64) -> i32
    ensures { result ≡ wrap32 number }
{
    ((number.cast_unsigned() % 0x1_0000_0000) as u32).cast_signed()
}
