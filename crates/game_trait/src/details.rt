//! What is shown of a world beside what a game's readings are.

ghost use Rattle.std.specs.Prelude.{◌≡◌, ℕ, false};
ghost use Rattle.game_trait.specs.Shown.{is_halted};
ghost use Rattle.game_trait.specs.declared.details.Ground.{Ground as GroundValue};
ghost use Rattle.game_trait.specs.declared.details.Vitals.{Vitals as VitalsValue};

use crate::game::Game;

/// What is shown of a sector: its heights, in fixed point, and its light.
#[derive(Clone, Copy, Debug, PartialEq, Eq)]
pub struct Ground {
    pub floor: i32,
    pub ceiling: i32,
    pub light: i16,
}

/// What is shown of the player's body: health and armour in points, the kind of the armour, and the tics that are left
/// of a radiation suit, of an invulnerability, and of standing still after a teleport.
#[derive(Clone, Copy, Debug, PartialEq, Eq)]
pub struct Vitals {
    pub health: i32,
    pub armour: i32,
    pub kind: u8,
    pub suit: u32,
    pub guard: u32,
    pub react: u32,
}

/// A game with sectors and a player's body.
pub trait Details: Game {
    /// The game has a sector with this number.
    ghost has_sector: { Self → ℕ → Type 0 };

    /// What is shown of a sector.
    ghost ground_of: { Self → Self.World → ℕ → GroundValue };

    /// What is shown of the player's body.
    ghost vitals_of: { Self → Self.World → VitalsValue };

    /// What a world that isn't halted shows of a sector.
    fn sector(&self, world: &Self::World, sector: u16) -> Ground
        requires fitting { Self.fits self.now world.now }
        requires there { has_sector self.now sector }
        requires live { is_halted (Self.shown_of self.now world.now) ≡ false }
        ensures { result ≡ ground_of self.now world.now sector };

    /// What a world that isn't halted shows of the player's body.
    fn vitals(&self, world: &Self::World) -> Vitals
        requires fitting { Self.fits self.now world.now }
        requires live { is_halted (Self.shown_of self.now world.now) ≡ false }
        ensures { result ≡ vitals_of self.now world.now };
}
