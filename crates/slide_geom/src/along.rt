//! The way along a wall.
ghost use Rattle.std.specs.Prelude.{◌≡◌, ◌<◌};
ghost use Rattle.slide_geom.specs.Along.{lead_of, in_half, bend_of, length_along, way_at, slanting_along, along_of};

use crate::angles::{turned, turned_back};
use fixed_angle::{PlayTables, aprox_distance, fixed_mul};
use map_geometry::{Line, Slope};

/// Half a turn.
const HALF: u32 = 1 << 31;

/// The side behind a line.
const BEHIND: u32 = 1;

/// The angle in which a line leads, and from behind the opposite one.
fn lead_of(tables: &PlayTables, line: &Line, side: u32) -> u32
    ensures { result ≡ lead_of tables.now line.now side }
{
    let Line { dx, dy, .. } = *line;
    let angle = tables.angle_of(dx, dy);
    if side == BEHIND {
        turned(angle, HALF)
    } else {
        angle
    }
}

/// An angle of more than half a turn, turned by a half.
fn in_half(angle: u32) -> u32
    ensures { result ≡ in_half angle }
{
    if angle > HALF {
        turned(angle, HALF)
    } else {
        angle
    }
}

/// How far a move turns from the angle of a line.
fn bend_of(tables: &PlayTables, lead: u32, dx: i32, dy: i32) -> u32
    ensures { result ≡ bend_of tables.now lead dx dy }
{
    in_half(turned_back(tables.angle_of(dx, dy), lead))
}

/// About what is left of a move's length along a line.
fn length_along(tables: &PlayTables, lead: u32, dx: i32, dy: i32) -> i32
    ensures { result ≡ length_along tables.now lead dx dy }
{
    let bend = bend_of(tables, lead, dx, dy);
    fixed_mul(aprox_distance(dx, dy), tables.cosine(bend))
}

/// The way of a length in an angle.
fn way_at(tables: &PlayTables, lead: u32, length: i32) -> (i32, i32)
    ensures { result ≡ way_at tables.now lead length }
{
    (
        fixed_mul(length, tables.cosine(lead)),
        fixed_mul(length, tables.sine(lead)),
    )
}

/// A move along a slanting line, which leads in this angle.
fn slanting_along(tables: &PlayTables, lead: u32, dx: i32, dy: i32) -> (i32, i32)
    ensures { result ≡ slanting_along tables.now lead dx dy }
{
    way_at(tables, lead, length_along(tables, lead, dx, dy))
}

/// The part of a move along a line, in fixed point, for a player on a side of it: 0 the front, 1 the back. Along a
/// level line the part in y falls away, along an upright one that in x.
#[tactic(auto, unfolding(crate::specs::Along::along_of))]
pub fn clip_along(tables: &PlayTables, line: &Line, side: u32, dx: i32, dy: i32) -> (i32, i32)
    requires { side < 2 }
    ensures { result ≡ along_of tables.now line.now side dx dy }
{
    match line.slope {
        Slope::Horizontal => (dx, 0),
        Slope::Vertical => (0, dy),
        Slope::Positive | Slope::Negative => {
            slanting_along(tables, lead_of(tables, line, side), dx, dy)
        }
    }
}
