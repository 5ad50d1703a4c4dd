//! Coordinates in blocks of 128 map units.
ghost use Rattle.std.specs.Prelude.{◌≡◌};
ghost use Rattle.fixed_angle.specs.Fixed.{units_of};
ghost use Rattle.block_walk.specs.Visits.{in_blocks};

/// A length in fixed point with the side of a block as the unit, rounded down.
#[inline]
pub fn in_blocks(length: i32) -> i32
    ensures { result ≡ in_blocks length }
{
    length >> 7
}

/// How many whole units a number in fixed point has, rounded down.
#[inline]
pub fn whole(number: i32) -> i32
    ensures { result ≡ units_of number }
{
    number >> 16
}
