//! The angle of a way, from the arc that it has from an axis.
ghost use Rattle.std.specs.Prelude.{◌≡◌, ◌%◌};
ghost use Rattle.fixed_angle.specs.Angle.{turn, flat_angle, steep_angle};

const QUARTER: u32 = 1 << 30;

const HALF: u32 = 1 << 31;

const THREE_QUARTERS: u32 = 3 << 30;

/// The angle of a way that is longer along x than along y, by its arc from the x axis.
pub fn flat(west: bool, south: bool, arc: u32) -> u32
    ensures { result ≡ flat_angle west south arc % turn }
{
    match (west, south) {
        (false, false) => arc,
        (false, true) => 0u32.wrapping_sub(arc),
        (true, false) => (HALF - 1).wrapping_sub(arc),
        (true, true) => HALF.wrapping_add(arc),
    }
}

/// The angle of any other way, by its arc from the y axis.
pub fn steep(west: bool, south: bool, arc: u32) -> u32
    ensures { result ≡ steep_angle west south arc % turn }
{
    match (west, south) {
        (false, false) => (QUARTER - 1).wrapping_sub(arc),
        (false, true) => THREE_QUARTERS.wrapping_add(arc),
        (true, false) => QUARTER.wrapping_add(arc),
        (true, true) => (THREE_QUARTERS - 1).wrapping_sub(arc),
    }
}
