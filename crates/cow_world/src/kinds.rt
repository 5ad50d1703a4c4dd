//! What movers and lights are asked to do.

/// A plane of a sector.
#[derive(Clone, Copy, Debug, PartialEq, Eq)]
pub enum Plane {
    Floor,
    Ceiling,
}

/// What a door does. A blazing door is four times as fast.
#[derive(Clone, Copy, Debug, PartialEq, Eq)]
pub enum DoorKind {
    /// Opens, waits and closes.
    Normal,
    BlazeRaise,
    /// Opens and stays.
    Open,
    BlazeOpen,
    /// Closes and stays.
    Close,
    BlazeClose,
    /// Closes, and opens again after 30 seconds.
    Close30,
    /// Waits five minutes, and goes on as a normal door.
    Raise5,
}

/// What a lift does.
#[derive(Clone, Copy, Debug, PartialEq, Eq)]
pub enum PlatKind {
    /// Goes down to the lowest floor around, waits and comes up.
    DownWaitUp,
    /// The same, twice as fast.
    Blazing,
    /// Goes up and down between the lowest and the highest floor around.
    Perpetual,
    /// Goes up by so many units and stays.
    RaiseBy24,
    RaiseBy32,
    /// Goes up to the next higher floor around and stays.
    RaiseToNext,
}

/// Where a floor goes. A turbo floor is four times as fast.
#[derive(Clone, Copy, Debug, PartialEq, Eq)]
pub enum FloorKind {
    ToHighest,
    ToLowest,
    TurboLower,
    ToCeiling,
    RaiseBy24,
    ToNext,
    TurboToNext,
}

/// What a line does with the light of its sectors.
#[derive(Clone, Copy, Debug, PartialEq, Eq)]
pub enum LightKind {
    /// To that of the brightest neighbour.
    ToGreatest,
    To255,
    To35,
    SlowStrobe,
    /// To that of the darkest of the sector and its neighbours.
    ToLeast,
}

/// How a light goes on by itself.
#[derive(Clone, Copy, Debug, PartialEq, Eq)]
pub enum GlowKind {
    Flash,
    Strobe,
    Flicker,
    Glow,
}
