//! What a world's lists hold. Coordinates, heights and momenta are in fixed point: 65536 is one map unit. Angles
//! are in angle units: 2^32 are a whole turn. Counts are in tics.

use crate::kinds::{DoorKind, FloorKind, GlowKind, PlatKind};
use health_fx::Body;

/// A sector as it stands now. `mover` is the place, among the thinkers, of the door, lift or floor that moves it.
#[derive(Clone, Copy, Debug, PartialEq, Eq)]
pub struct Sector {
    pub floor: i32,
    pub ceiling: i32,
    pub light: i16,
    pub special: u16,
    pub mover: Option<u32>,
}

/// A thing: its kind's number (that of the player is 1), its place, the floor and the ceiling that it stands
/// between, the angle with which it was spawned, and whether it is still there. A thing that was taken keeps its place
/// in the list.
#[derive(Clone, Copy, Debug, PartialEq, Eq)]
pub struct Thing {
    pub kind: u16,
    pub x: i32,
    pub y: i32,
    pub z: i32,
    pub floorz: i32,
    pub ceilingz: i32,
    pub angle: u32,
    pub present: bool,
}

/// The player. `thing` is its place among the things, where its x, y, z, floorz and ceilingz are. `angle` is the way
/// it looks; the angle of its thing stays that of the spawning. Keys are blue 1, yellow 2, red 4. `held` says whether
/// the use button was held in the tic before.
#[derive(Clone, Copy, Debug, PartialEq, Eq)]
pub struct Player {
    pub thing: u32,
    pub momx: i32,
    pub momy: i32,
    pub momz: i32,
    pub angle: u32,
    pub keys: u8,
    pub held: bool,
    pub body: Body,
}

/// What changes a sector in every tic. A height that was never set is `None`. A door, lift or floor that has ended
/// keeps its place, so that the places behind it stay.
#[derive(Clone, Copy, Debug, PartialEq, Eq)]
pub enum Thinker {
    /// A door; `top` is the ceiling's height when it is open, `count` what is left of a wait.
    Door {
        sector: u32,
        kind: DoorKind,
        phase: DoorPhase,
        top: Option<i32>,
        count: i32,
    },
    /// A lift between `low` and `high`. One that is stopped keeps its phase. `wait` is how long it waits at an end,
    /// `count` what is left of a wait.
    Lift {
        sector: u32,
        kind: PlatKind,
        phase: LiftPhase,
        stopped: bool,
        low: Option<i32>,
        high: i32,
        wait: i32,
        count: i32,
    },
    /// A floor on its way to a height.
    Floor {
        sector: u32,
        kind: FloorKind,
        dest: i32,
    },
    /// A light between two levels. `dark` is how long a strobe stays dark, `up` whether a glow gets brighter.
    Light {
        sector: u32,
        kind: GlowKind,
        min: i16,
        max: i16,
        count: i32,
        dark: i32,
        up: bool,
    },
    Ended,
}

/// What a door is doing.
#[derive(Clone, Copy, Debug, PartialEq, Eq)]
pub enum DoorPhase {
    /// The wait before a door goes up for the first time.
    First,
    Up,
    /// The wait while it is open, or closed for a while.
    Wait,
    Down,
}

/// What a lift is doing.
#[derive(Clone, Copy, Debug, PartialEq, Eq)]
pub enum LiftPhase {
    Up,
    Down,
    Wait,
}
