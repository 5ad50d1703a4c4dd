// Hits, and what armour saves of them.
ghost use Rattle.std.specs.Prelude.{◌≡◌, ◌≢◌, ◌≤◌, pos, ◌-ℤ◌, ◌≤ℤ◌, ◌<ℤ◌};
ghost use Rattle.std.specs.Int.{int_max};
ghost use Rattle.health_fx.specs.Body.{softened, spared_last, share, is_used_up, saved, kind_left};

use crate::body::{BLUE, Body, GREEN};

/// What came of a hit.
#[derive(Clone, Copy, Debug, PartialEq, Eq)]
pub enum Hurt {
    /// An invulnerability kept it off.
    Spared,
    Lived,
    Died,
}

impl Body {
    ghost use Rattle.health_fx.specs.Body.{struck, freed, fate_after, fate_of, hurt_of};
    ghost use Rattle.health_fx.specs.declared.hits.Hurt;

    /// A hit of so many points of damage. In a finale it leaves at least one point of health.
    pub fn hurt(&mut self, damage: i32, finale: bool) -> Hurt
        requires some { pos 0 ≤ℤ damage }
        requires most { damage ≤ℤ pos 20 }
        requires alive { pos 0 <ℤ self.old.health }
        ensures fate { result ≡ fate_of self.old damage finale }
        ensures body { self.new ≡ hurt_of self.old damage finale }
        ensures alive { result ≢ Hurt.Died → pos 0 <ℤ self.new.health }
    {
        if self.guard > 0 {
            return Hurt::Spared;
        }
        let dealt = dealt(self.health, self.soft, damage, finale);
        self.strike(dealt);
        self.settle()
    }

    /// Damage that has come to the armour.
    fn strike(&mut self, damage: i32)
        requires some { pos 0 ≤ℤ damage }
        requires most { damage ≤ℤ pos 200 }
        ensures { self.new ≡ struck self.old damage }
    {
        let saved = saved(self.kind, self.armour, damage);
        let kind = kind_left(self.kind, self.armour, damage);
        self.health = left(self.health, damage - saved);
        self.armour -= saved;
        self.kind = kind;
    }

    /// Who lives on can move again.
    fn settle(&mut self) -> Hurt
        ensures fate { result ≡ fate_after self.old }
        ensures body { self.new ≡ freed self.old }
    {
        if self.health > 0 {
            self.react = 0;
            Hurt::Lived
        } else {
            Hurt::Died
        }
    }
}

/// The damage with which a hit comes to the armour.
fn dealt(health: i32, soft: bool, damage: i32, finale: bool) -> i32
    requires some { pos 0 ≤ℤ damage }
    requires alive { pos 0 <ℤ health }
    ensures value { result ≡ spared_last health finale (softened soft damage) }
    ensures from { pos 0 ≤ℤ result }
    ensures to { result ≤ℤ damage }
{
    let softened = if soft { damage / 2 } else { damage };
    if finale && health <= softened {
        return health - 1;
    }
    softened
}

/// What armour of this kind saves of some damage, while there is enough of it.
fn share(kind: u8, damage: i32) -> i32
    requires some { pos 0 ≤ℤ damage }
    ensures value { result ≡ share kind damage }
    ensures from { pos 0 ≤ℤ result }
    ensures to { result ≤ℤ damage }
{
    match kind {
        GREEN => damage / 3,
        BLUE => damage / 2,
        _ => 0,
    }
}

/// Whether the armour is used up by what it saves of some damage.
fn is_used_up(kind: u8, armour: i32, damage: i32) -> bool
    requires some { pos 0 ≤ℤ damage }
    ensures { result ≡ is_used_up kind armour damage }
{
    kind != 0 && armour <= share(kind, damage)
}

/// What comes off the armour.
fn saved(kind: u8, armour: i32, damage: i32) -> i32
    requires some { pos 0 ≤ℤ damage }
    requires armour { pos 0 ≤ℤ armour }
    ensures value { result ≡ saved kind armour damage }
    ensures from { pos 0 ≤ℤ result }
    ensures within { result ≤ℤ armour }
    ensures to { result ≤ℤ damage }
{
    if is_used_up(kind, armour, damage) {
        armour
    } else {
        share(kind, damage)
    }
}

/// The kind of the armour after some damage.
fn kind_left(kind: u8, armour: i32, damage: i32) -> u8
    requires some { pos 0 ≤ℤ damage }
    ensures value { result ≡ kind_left kind armour damage }
    ensures to { result ≤ kind }
{
    if is_used_up(kind, armour, damage) {
        0
    } else {
        kind
    }
}

/// The points that are left after a loss.
fn left(points: i32, loss: i32) -> i32
    requires some { pos 0 ≤ℤ loss }
    requires points { pos 0 ≤ℤ points }
    ensures value { result ≡ int_max (pos 0) (points -ℤ loss) }
    ensures from { pos 0 ≤ℤ result }
    ensures to { result ≤ℤ points }
{
    (points - loss).max(0)
}
