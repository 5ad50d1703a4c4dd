ghost use Rattle.std.specs.Prelude.{◌≡◌};

use std::marker::Model;

/// A player's body.
#[derive(Clone, Copy, Debug, PartialEq, Eq)]
pub struct Body {
    /// From 0 to 200.
    pub health: i32,
    /// From 0 to 200.
    pub armour: i32,
    /// Of the armour: 0 none, 1 green, 2 blue.
    pub kind: u8,
    /// What is left of a radiation suit.
    pub suit: u32,
    /// What is left of an invulnerability.
    pub guard: u32,
    /// How long the player still can't move after a teleport.
    pub react: u32,
    /// Whether damage is halved, as in the easiest skill.
    pub soft: bool,
}

/// The kind of green armour.
pub const GREEN: u8 = 1;

/// The kind of blue armour.
pub const BLUE: u8 = 2;

impl Model for Body {
    ghost use Rattle.health_fx.specs.Body.{Body as Vitals, InBounds};

    ghost Value = { Vitals };

    ghost view = { λ a. record { health = a.health; armour = a.armour; kind = a.kind; suit = a.suit; guard = a.guard; react = a.react; soft = a.soft } };

    ghost invariant = { λ a. InBounds a.health a.armour a.kind };

    ghost inverse = { λ a. record { health = a.health; armour = a.armour; kind = a.kind; suit = a.suit; guard = a.guard; react = a.react; soft = a.soft } };
}

impl Body {
    ghost use Rattle.health_fx.specs.Body.{fresh, ticked};

    /// A whole body without armour.
    pub fn new(soft: bool) -> Self
        ensures { result ≡ fresh soft }
    {
        Body {
            health: 100,
            armour: 0,
            kind: 0,
            suit: 0,
            guard: 0,
            react: 0,
            soft,
        }
    }

    /// A tic passes.
    pub fn tick(&mut self)
        ensures { self.new ≡ ticked self.old }
    {
        self.suit = self.suit.saturating_sub(1);
        self.guard = self.guard.saturating_sub(1);
    }
}
