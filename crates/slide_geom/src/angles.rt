//! Sums and differences of angles. A turn is 2^32.
ghost use Rattle.std.specs.Prelude.{◌≡◌};
ghost use Rattle.slide_geom.specs.Angles.{turned, turned_back};

/// An angle, further on by another.
pub fn turned(angle: u32, by: u32) -> u32
    ensures { result ≡ turned angle by }
{
    angle.wrapping_add(by)
}

/// An angle, back by another.
pub fn turned_back(angle: u32, by: u32) -> u32
    ensures { result ≡ turned_back angle by }
{
    angle.wrapping_sub(by)
}
