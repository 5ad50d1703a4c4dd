// Things that a body takes.
ghost use Rattle.std.specs.Prelude.{◌≡◌, pos, ◌≤ℤ◌, ◌<ℤ◌, ◌+ℤ◌, ◌≤◌, is_some, unwrap_or};
ghost use Rattle.std.specs.Int.{int_min};

use crate::body::{BLUE, Body, GREEN};

// The numbers of the things, as a level names them.
const MEGA_SPHERE: u16 = 83;

const STIMPACK: u16 = 2011;

const MEDIKIT: u16 = 2012;

const SOUL_SPHERE: u16 = 2013;

const HEALTH_BONUS: u16 = 2014;

const ARMOUR_BONUS: u16 = 2015;

const GREEN_ARMOUR: u16 = 2018;

const BLUE_ARMOUR: u16 = 2019;

const INVULNERABILITY: u16 = 2022;

const BERSERK: u16 = 2023;

const RADIATION_SUIT: u16 = 2025;

const MOST: i32 = 200;

const WHOLE: i32 = 100;

const SUIT_TICS: u32 = 2100;

const GUARD_TICS: u32 = 1050;

impl Body {
    ghost use Rattle.health_fx.specs.Body.{taken_of, restored, strengthened, patched, armoured, renewed, revived, suited, guarded};

    /// Takes the thing of this number, or says that it is left, and then nothing changes. `doom2` says whether the
    /// level is one of Doom II.
    pub fn take(&mut self, number: u16, doom2: bool) -> bool
        ensures taken { result ≡ is_some (taken_of self.old number doom2) }
        ensures body { self.new ≡ unwrap_or (taken_of self.old number doom2) self.old }
        ensures alive { pos 0 <ℤ self.old.health → pos 0 <ℤ self.new.health }
    {
        match number {
            STIMPACK => self.restore(10),
            MEDIKIT => self.restore(25),
            HEALTH_BONUS => self.strengthen(1),
            SOUL_SPHERE => self.strengthen(100),
            ARMOUR_BONUS => self.patch(),
            GREEN_ARMOUR => self.put_on(GREEN, 100),
            BLUE_ARMOUR => self.put_on(BLUE, MOST),
            MEGA_SPHERE if doom2 => self.renew(),
            BERSERK => self.revive(),
            RADIATION_SUIT => self.shield(),
            INVULNERABILITY => self.shelter(),
            _ => false,
        }
    }

    /// Restores health up to 100.
    fn restore(&mut self, points: i32) -> bool
        requires from { pos 0 ≤ℤ points }
        requires to { points ≤ℤ pos 100 }
        ensures taken { result ≡ is_some (restored self.old points) }
        ensures body { self.new ≡ unwrap_or (restored self.old points) self.old }
    {
        if self.health >= WHOLE {
            return false;
        }
        self.health = sum_within(self.health, points, WHOLE);
        true
    }

    /// Adds health up to 200.
    fn strengthen(&mut self, points: i32) -> bool
        requires from { pos 0 ≤ℤ points }
        requires to { points ≤ℤ pos 100 }
        ensures taken { result ≡ is_some (strengthened self.old points) }
        ensures body { self.new ≡ unwrap_or (strengthened self.old points) self.old }
    {
        self.health = sum_within(self.health, points, MOST);
        true
    }

    /// A piece of armour; without armour it is green.
    fn patch(&mut self) -> bool
        ensures taken { result ≡ is_some (patched self.old) }
        ensures body { self.new ≡ unwrap_or (patched self.old) self.old }
    {
        self.armour = sum_within(self.armour, 1, MOST);
        if self.kind == 0 {
            self.kind = GREEN;
        }
        true
    }

    /// A suit of armour, where the body has less.
    fn put_on(&mut self, kind: u8, points: i32) -> bool
        requires kind { kind ≤ 2 }
        requires from { pos 0 ≤ℤ points }
        requires to { points ≤ℤ pos 200 }
        ensures taken { result ≡ is_some (armoured self.old kind points) }
        ensures body { self.new ≡ unwrap_or (armoured self.old kind points) self.old }
    {
        if self.armour >= points {
            return false;
        }
        self.armour = points;
        self.kind = kind;
        true
    }

    /// All health and armour.
    fn renew(&mut self) -> bool
        ensures taken { result ≡ is_some (renewed self.old) }
        ensures body { self.new ≡ unwrap_or (renewed self.old) self.old }
    {
        self.health = MOST;
        let _had_less = self.put_on(BLUE, MOST);
        true
    }

    /// At least whole health.
    fn revive(&mut self) -> bool
        ensures taken { result ≡ is_some (revived self.old) }
        ensures body { self.new ≡ unwrap_or (revived self.old) self.old }
    {
        self.health = self.health.max(WHOLE);
        true
    }

    /// A radiation suit.
    fn shield(&mut self) -> bool
        ensures taken { result ≡ is_some (suited self.old) }
        ensures body { self.new ≡ unwrap_or (suited self.old) self.old }
    {
        self.suit = SUIT_TICS;
        true
    }

    /// An invulnerability.
    fn shelter(&mut self) -> bool
        ensures taken { result ≡ is_some (guarded self.old) }
        ensures body { self.new ≡ unwrap_or (guarded self.old) self.old }
    {
        self.guard = GUARD_TICS;
        true
    }
}

/// The sum of points, cut off at `most`.
fn sum_within(points: i32, more: i32, most: i32) -> i32
    requires points { (pos 0 ≤ℤ points) × (points ≤ℤ pos 200) }
    requires more { (pos 0 ≤ℤ more) × (more ≤ℤ pos 200) }
    requires most { (pos 0 ≤ℤ most) × (most ≤ℤ pos 200) }
    ensures value { result ≡ int_min (points +ℤ more) most }
    ensures from { pos 0 ≤ℤ result }
    ensures to { result ≤ℤ most }
{
    (points + more).min(most)
}
