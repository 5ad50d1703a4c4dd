//! What a world shows.

/// What can be asked of a world that is not halted.
#[derive(Clone, Copy, Debug, PartialEq, Eq)]
pub enum Quantity {
    /// The player's place, in fixed point: 65536 is one map unit.
    X,
    Y,
    Z,
    /// The player's momentum, in fixed point a tic.
    MomX,
    MomY,
    MomZ,
    /// The way the player looks, in angle units: 2^32 are a whole turn.
    Angle,
    /// The random index, 0 to 255.
    Rng,
    /// The keys held: blue 1, yellow 2, red 4.
    Keys,
    /// 0, or 1 after an exit, or 2 after a secret exit.
    Exited,
    /// The player's health, above 0 while the world is live, and at most 200.
    Health,
    /// The points of the player's armour, 0 to 200.
    Armour,
}

/// What a world shows of itself.
#[derive(Clone, Copy, Debug, PartialEq, Eq)]
pub enum Shown {
    /// After `tic` tics: the player's place and momentum in fixed point, the angle in angle units, the random index,
    /// and how the level was left, as [`Quantity::Exited`] has it.
    Live {
        tic: u64,
        x: i32,
        y: i32,
        z: i32,
        momx: i32,
        momy: i32,
        momz: i32,
        angle: u32,
        rng: u8,
        exited: u8,
    },
    /// The tic that halted, counted from 1, and why.
    Halted {
        tic: u64,
        halt: Halt,
    },
}

/// Why a replay goes no further.
#[derive(Clone, Copy, Debug, PartialEq, Eq)]
pub enum Halt {
    /// The player attacked.
    Attack,
    /// A tic with the special button.
    Button,
    /// A line with this special, which is not played.
    Special(u16),
    /// A sector with this special, which is not played.
    Sector(u16),
    /// More lines with a special touched at once than the original has room for.
    Listed,
    /// More intercepts of one trace than the original has room for.
    Intercepts,
    /// More lifts than the original has room for.
    Lifts,
    /// A height that was never set is asked for.
    Unset,
    /// A door is opened by hand in a sector that a lift or a floor moves.
    Mover,
    /// A door is opened by hand through this line, which has nothing behind it.
    NoBack(u32),
    /// The player's health came to 0.
    Died,
    /// A teleport leads to where something stands.
    Stomp,
}
