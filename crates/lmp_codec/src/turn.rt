ghost use Rattle.std.specs.Prelude.{◌≡◌, ◌%◌, false};
ghost use Rattle.lmp_codec.specs.Turns.{turn_count, least_turn, greatest_turn, turn_of};

/// How many turns a circle has: 65,536 in a long demo, of version 111, and 256 in a short one, of version 109.
pub fn turn_count(long: bool) -> u32
    ensures { result ≡ turn_count long }
{
    if long { 65_536 } else { 256 }
}

/// The least number that may say a turn.
pub fn least_turn(long: bool) -> i32
    ensures { result ≡ least_turn long }
{
    if long { -32_768 } else { -128 }
}

/// The greatest number that may say a turn.
pub fn greatest_turn(long: bool) -> i32
    ensures { result ≡ greatest_turn long }
{
    if long { 65_535 } else { 255 }
}

/// The turn that a number says, in 65,536ths of a circle: the number modulo 65,536 in a long demo, and 256 times the
/// number modulo 256 in a short one.
pub fn turn_of(long: bool, number: i32) -> u16
    ensures turn { result ≡ turn_of long number }
    ensures short { long ≡ false → result % 256 ≡ 0 }
{
    if long {
        number.rem_euclid(65_536) as u16
    } else {
        256 * number.rem_euclid(256) as u16
    }
}
