// Where a teleporter leads.
ghost use Rattle.std.specs.Prelude.{◌≡◌, ◌<◌, length, IfSome, IsTrue};
ghost use Rattle.cow_world.specs.Flat.{parts};
ghost use Rattle.cow_world.specs.Fits.{FitsLevel};
ghost use Rattle.line_specials.specs.Teleports.{is_marker, sector_under, exit_of, exit_with, is_before};

use block_walk::{MARKER, sector_of_exit};
use cow_world::World;
use map_geometry::Level;

/// An exit: its sector and its thing.
pub type Exit = (u32, u32);

/// Where a teleporter leads: in the first of the sectors with a tag that has an exit, to the first one. It looks at
/// each thing once.
pub fn exit_of(level: &Level, world: &World, tag: i16) -> Option<Exit>
    requires { FitsLevel level.now world.now }
    ensures exit { result ≡ exit_of level.now world.now tag }
    ensures sector { IfSome result (λ exit. exit.0 < length level.now.sectors) }
    ensures thing { IfSome result (λ exit. exit.1 < length (parts world.now).things) }
{
    let mut exit = None;
    // From the last thing to the first: of those in one sector the first stays.
    for thing in (0..world.thing_count()).rev() {
        exit = exit_with(level, world, tag, exit, thing);
    }
    exit
}

// The exit so far, or this thing.
fn exit_with(level: &Level, world: &World, tag: i16, exit: Option<Exit>, thing: u32) -> Option<Exit>
    requires fits { FitsLevel level.now world.now }
    requires there { thing < length (parts world.now).things }
    requires sector { IfSome exit (λ exit. exit.0 < length level.now.sectors) }
    requires thing { IfSome exit (λ exit. exit.1 < length (parts world.now).things) }
    ensures exit { result ≡ exit_with level.now world.now tag exit thing }
    ensures within { IsTrue (is_marker world.now thing) → sector_under level.now world.now thing < length level.now.sectors }
    ensures sector { IfSome result (λ exit. exit.0 < length level.now.sectors) }
    ensures thing { IfSome result (λ exit. exit.1 < length (parts world.now).things) }
{
    let spot = world.thing(thing);
    if !spot.present || spot.kind != MARKER {
        return exit;
    }
    let sector = sector_of_exit(level, spot.x, spot.y);
    if !level.has_tag(sector as usize, tag) || is_before(exit, sector) {
        return exit;
    }
    Some((sector, thing))
}

// Whether the exit so far lies in an earlier sector.
fn is_before(exit: Option<Exit>, sector: u32) -> bool
    ensures { result ≡ is_before exit sector }
{
    match exit {
        Some((earlier, _)) => earlier < sector,
        None => false,
    }
}
