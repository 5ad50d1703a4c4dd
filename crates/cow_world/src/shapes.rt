//! What a thing is: its flags, radius and height.
ghost use Rattle.std.specs.Prelude.{◌≡◌, ◌<◌, length};
ghost use Rattle.cow_world.specs.Flat.{IsLive, parts};
ghost use Rattle.cow_world.specs.Shapes.{has_bit, is_special, is_solid, is_shootable, player_shape, shape_of};

use crate::world::World;
use fixed_angle::PlayTables;

/// Something happens when the player touches it.
pub const SPECIAL: u16 = 1;

/// It is in the way.
pub const SOLID: u16 = 2;

/// It can be hurt, and a plane that moves can squeeze it.
pub const SHOOTABLE: u16 = 4;

/// It hangs from the ceiling.
pub const HANGS: u16 = 8;

/// It isn't spawned where there are no monsters.
pub const MONSTER: u16 = 16;

/// It isn't linked into blocks.
pub const NOT_LINKED: u16 = 32;

/// Whether flags of a kind of things have a flag.
pub fn has_bit(flags: u16, flag: u16) -> bool
    ensures { result ≡ has_bit flags flag }
{
    flags & flag != 0
}

/// What a thing is: the flags of its kind, and its radius and height in fixed point.
#[derive(Clone, Copy, Debug, PartialEq, Eq)]
pub struct Shape {
    pub flags: u16,
    pub radius: i32,
    pub height: i32,
}

impl Shape {
    /// Whether something happens when the player touches it.
    pub fn is_special(&self) -> bool
        ensures { result ≡ is_special self.now }
    {
        has_bit(self.flags, SPECIAL)
    }

    /// Whether it is in the way.
    pub fn is_solid(&self) -> bool
        ensures { result ≡ is_solid self.now }
    {
        has_bit(self.flags, SOLID)
    }

    /// Whether it can be hurt, and squeezed by a plane that moves.
    pub fn is_shootable(&self) -> bool
        ensures { result ≡ is_shootable self.now }
    {
        has_bit(self.flags, SHOOTABLE)
    }
}

/// The player: solid and shootable, 16 map units round and 56 high.
pub const PLAYER_SHAPE: Shape = Shape {
    flags: SOLID | SHOOTABLE,
    radius: 16 * 65536,
    height: 56 * 65536,
};

impl World {
    /// What the thing at a place is: the player where the player stands for that place, and else what the tables say of
    /// its kind. A kind that they don't have is nothing.
    pub fn shape(&self, tables: &PlayTables, thing: u32) -> Shape
        requires live { IsLive self.now }
        requires there { thing < length (parts self.now).things }
        ensures { result ≡ shape_of tables.now self.now thing }
    {
        if thing == self.player().thing {
            return PLAYER_SHAPE;
        }
        match tables.kind_of(self.thing(thing).kind) {
            Some(kind) => Shape {
                flags: kind.flags,
                radius: kind.radius,
                height: kind.height,
            },
            None => Shape {
                flags: 0,
                radius: 0,
                height: 0,
            },
        }
    }
}
