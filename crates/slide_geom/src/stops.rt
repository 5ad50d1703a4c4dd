//! Which lines stop a player who slides.
ghost use Rattle.std.specs.Prelude.{◌≡◌, ◌<◌, length, All, IfSome};
ghost use Rattle.cow_world.specs.Fits.{FitsLevel};
ghost use Rattle.slide_geom.specs.Stops.{is_narrow, is_in_front, stops};
ghost use Rattle.slide_geom.specs.Best.{first_stop};

use cow_world::{Gap, PLAYER_SHAPE, Thing, World};
use map_geometry::{Level, Line, difference, line_side};

/// The flag of a line that has two sides.
const TWO_SIDED: u16 = 4;

/// The greatest step that a player climbs, in fixed point.
const STEP: i32 = 24 * 65536;

/// Whether a gap is too narrow for the player, whose thing this is.
fn is_narrow(player: &Thing, gap: &Gap) -> bool
    ensures { result ≡ is_narrow player.now.z gap.now }
{
    let Gap {
        range,
        top,
        bottom,
        ..
    } = *gap;
    let z = player.z;
    if range < PLAYER_SHAPE.height {
        return true;
    }
    if difference(top, z) < PLAYER_SHAPE.height {
        return true;
    }
    difference(bottom, z) > STEP
}

/// Whether the player, whose thing this is, stands in front of a line.
#[tactic(auto, using(map_geometry::proofs::Ways::casts))]
fn is_in_front(player: &Thing, line: &Line) -> bool
    ensures { result ≡ is_in_front player.now line.now }
{
    let Thing { x, y, .. } = *player;
    line_side(line, x, y) == 0
}

/// Whether a line stops the player, whose thing this is: one of two sides by its gap, and one of one side by its front.
fn stops(level: &Level, world: &World, player: &Thing, number: u32) -> bool
    requires fits { FitsLevel level.now world.now }
    requires there { number < length level.now.lines }
    ensures { result ≡ stops level.now world.now player.now number }
{
    let line = level.line(number as usize);
    if line.has_flag(TWO_SIDED) {
        return is_narrow(player, &world.gap(level, number));
    }
    is_in_front(player, &line)
}

/// Of lines in the order in which they are met, the first that stops the player.
pub fn first_stop(
    level: &Level,
    world: &World,
    player: &Thing,
    met: &[(i32, u32)],
) -> Option<(i32, u32)>
    requires fits { FitsLevel level.now world.now }
    requires there { All (λ pair. pair.1 < length level.now.lines) met.now }
    ensures first { result ≡ first_stop level.now world.now player.now met.now }
    ensures there { IfSome result (λ pair. pair.1 < length level.now.lines) }
{
    for pair in met {
        if stops(level, world, player, pair.1) {
            return Some(*pair);
        }
    }
    None
}
