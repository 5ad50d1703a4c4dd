//! The flat world: what a tic may read and write.
//!
//! A [`World`] is seen as plain lists and numbers, or as halted. Each writer changes what it names and nothing else,
//! and on want of memory nothing. What the rules of play do to a world is said in terms of the definitions in
//! `specs/Flat.antt`, which have the names of the calls; `specs/Outcome.antt` says what a part of a tic comes to, and
//! `specs/Fits.antt` what a world has to be for the rules.
//!
//! A rule takes the level and the play tables that its world fits, and says that the world fits them afterwards. Where
//! it reads neither, `let _level = level;` tells the compiler so: they are there for the contract alone.
#![tactic(auto)]

mod around;
mod fault;
mod gaps;
mod grid;
mod kept_thinkers;
mod kinds;
mod links;
mod lists;
mod nearby;
mod numbers;
mod random;
mod records;
mod sectors;
mod shapes;
mod things;
mod thinkers;
mod world;

pub use fault::PlayFault;
pub use gaps::Gap;
pub use grid::Grid;
pub use kept_thinkers::Stretch;
pub use kinds::{DoorKind, FloorKind, GlowKind, LightKind, Plane, PlatKind};
pub use link_order::{FEW_THINGS, Things};
pub use records::{DoorPhase, LiftPhase, Player, Sector, Thing, Thinker};
pub use shapes::{
    HANGS, MONSTER, NOT_LINKED, PLAYER_SHAPE, SHOOTABLE, SOLID, SPECIAL, Shape, has_bit,
};
pub use world::World;
