//! Places whose sector a level was told, so that nothing has to look for it again.
ghost use Rattle.std.specs.Prelude.{◌≡◌, ◌<◌, All, Contains, IfSome, length};
ghost use Rattle.map_geometry.specs.Places.{IsKnownIn, sector_of_place};

use crate::level::Level;

/// A place, in fixed point, and the number of its sector.
#[derive(Clone, Copy, Debug, PartialEq, Eq)]
pub struct Known {
    pub x: i32,
    pub y: i32,
    pub sector: u32,
}

/// What is known of a place, among places in the order of x and then of y.
fn known_at(known: &[Known], x: i32, y: i32) -> Option<Known>
    ensures found { IfSome result (λ place. Contains known.now place) }
    ensures x { IfSome result (λ place. place.x ≡ x) }
    ensures y { IfSome result (λ place. place.y ≡ y) }
{
    match known.binary_search_by_key(&(x, y), |place| (place.x, place.y)) {
        Ok(i) => Some(known[i]),
        Err(_) => None,
    }
}

impl Level {
    /// Tells the level the sectors of these places, in any order. It forgets those that it was told before.
    pub fn know(&mut self, known: Vec<Known>)
        requires { All (IsKnownIn self.old) known.items }
        ensures { self.new ≡ self.old }
    {
        self.known = known;
        self.known.sort_unstable_by_key(|place| (place.x, place.y));
    }

    /// The sector of a place, in fixed point, where the level was told it. It takes steps by the logarithm of how many
    /// places the level was told.
    pub fn known_sector(&self, x: i32, y: i32) -> Option<u32>
        ensures place { IfSome result (λ sector. sector ≡ sector_of_place self.now x y) }
        ensures there { IfSome result (λ sector. sector < length self.now.sectors) }
    {
        match known_at(&self.known, x, y) {
            Some(place) => Some(place.sector),
            None => None,
        }
    }
}
