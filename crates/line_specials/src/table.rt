//! What the numbers of lines mean.
ghost use Rattle.std.specs.Prelude.{◌≡◌, ◌==◌, find, IfSome};
ghost use Rattle.mover_start.specs.Manual.{IsManual};
ghost use Rattle.line_specials.specs.Table.{is_walk, row_of, walk_row, use_row, crossed_halts, used_halts, is_among, key_bit};

use cow_world::{DoorKind, FloorKind, LightKind, PlatKind};

/// What sets a line off, and whether it can be set off again.
#[derive(Clone, Copy, Debug, PartialEq, Eq)]
pub enum Trigger {
    WalkOnce,
    WalkAgain,
    SwitchOnce,
    SwitchAgain,
    /// A door that is opened by hand.
    Hand,
}

/// What opens a lock.
#[derive(Clone, Copy, Debug, PartialEq, Eq)]
pub enum Key {
    Blue,
    Yellow,
    Red,
}

/// What a line does.
#[derive(Clone, Copy, Debug, PartialEq, Eq)]
pub enum Action {
    Door(DoorKind),
    /// A blazing door that opens and stays, for those who have the key.
    LockedDoor(Key),
    Floor(FloorKind),
    Lift(PlatKind),
    StopLift,
    Light(LightKind),
    Exit,
    SecretExit,
    Teleport,
    ByHand,
}

/// A line's number, what sets it off, what it does, and whether it keeps its number then. A switch or a door that lost
/// its number lost it only where something started.
pub type Row = (u16, Trigger, Action, bool);

const KEEPS: bool = true;

const LOSES: bool = false;

use Action::{ByHand, Door, Exit, Floor, Lift, Light, LockedDoor, SecretExit, StopLift, Teleport};
use Trigger::{Hand, SwitchAgain, SwitchOnce, WalkAgain, WalkOnce};

/// In the order of the numbers.
pub const ROWS: [Row; 104] = [
    (1, Hand, ByHand, KEEPS),
    (2, WalkOnce, Door(DoorKind::Open), LOSES),
    (3, WalkOnce, Door(DoorKind::Close), LOSES),
    (4, WalkOnce, Door(DoorKind::Normal), LOSES),
    (5, WalkOnce, Floor(FloorKind::ToCeiling), LOSES),
    (10, WalkOnce, Lift(PlatKind::DownWaitUp), LOSES),
    (11, SwitchOnce, Exit, LOSES),
    (12, WalkOnce, Light(LightKind::ToGreatest), LOSES),
    (13, WalkOnce, Light(LightKind::To255), LOSES),
    (14, SwitchOnce, Lift(PlatKind::RaiseBy32), LOSES),
    (15, SwitchOnce, Lift(PlatKind::RaiseBy24), LOSES),
    (16, WalkOnce, Door(DoorKind::Close30), LOSES),
    (17, WalkOnce, Light(LightKind::SlowStrobe), LOSES),
    (18, SwitchOnce, Floor(FloorKind::ToNext), LOSES),
    (19, WalkOnce, Floor(FloorKind::ToHighest), LOSES),
    (20, SwitchOnce, Lift(PlatKind::RaiseToNext), LOSES),
    (21, SwitchOnce, Lift(PlatKind::DownWaitUp), LOSES),
    (22, WalkOnce, Lift(PlatKind::RaiseToNext), LOSES),
    (23, SwitchOnce, Floor(FloorKind::ToLowest), LOSES),
    (26, Hand, ByHand, KEEPS),
    (27, Hand, ByHand, KEEPS),
    (28, Hand, ByHand, KEEPS),
    (29, SwitchOnce, Door(DoorKind::Normal), LOSES),
    (31, Hand, ByHand, LOSES),
    (32, Hand, ByHand, LOSES),
    (33, Hand, ByHand, LOSES),
    (34, Hand, ByHand, LOSES),
    (35, WalkOnce, Light(LightKind::To35), LOSES),
    (36, WalkOnce, Floor(FloorKind::TurboLower), LOSES),
    (38, WalkOnce, Floor(FloorKind::ToLowest), LOSES),
    (39, WalkOnce, Teleport, LOSES),
    (42, SwitchAgain, Door(DoorKind::Close), KEEPS),
    (45, SwitchAgain, Floor(FloorKind::ToHighest), KEEPS),
    (50, SwitchOnce, Door(DoorKind::Close), LOSES),
    (51, SwitchOnce, SecretExit, LOSES),
    (52, WalkOnce, Exit, KEEPS),
    (53, WalkOnce, Lift(PlatKind::Perpetual), LOSES),
    (54, WalkOnce, StopLift, LOSES),
    (58, WalkOnce, Floor(FloorKind::RaiseBy24), LOSES),
    (60, SwitchAgain, Floor(FloorKind::ToLowest), KEEPS),
    (61, SwitchAgain, Door(DoorKind::Open), KEEPS),
    (62, SwitchAgain, Lift(PlatKind::DownWaitUp), KEEPS),
    (63, SwitchAgain, Door(DoorKind::Normal), KEEPS),
    (64, SwitchAgain, Floor(FloorKind::ToCeiling), KEEPS),
    (66, SwitchAgain, Lift(PlatKind::RaiseBy24), KEEPS),
    (67, SwitchAgain, Lift(PlatKind::RaiseBy32), KEEPS),
    (68, SwitchAgain, Lift(PlatKind::RaiseToNext), KEEPS),
    (69, SwitchAgain, Floor(FloorKind::ToNext), KEEPS),
    (70, SwitchAgain, Floor(FloorKind::TurboLower), KEEPS),
    (71, SwitchOnce, Floor(FloorKind::TurboLower), LOSES),
    (75, WalkAgain, Door(DoorKind::Close), KEEPS),
    (76, WalkAgain, Door(DoorKind::Close30), KEEPS),
    (79, WalkAgain, Light(LightKind::To35), KEEPS),
    (80, WalkAgain, Light(LightKind::ToGreatest), KEEPS),
    (81, WalkAgain, Light(LightKind::To255), KEEPS),
    (82, WalkAgain, Floor(FloorKind::ToLowest), KEEPS),
    (83, WalkAgain, Floor(FloorKind::ToHighest), KEEPS),
    (86, WalkAgain, Door(DoorKind::Open), KEEPS),
    (87, WalkAgain, Lift(PlatKind::Perpetual), KEEPS),
    (88, WalkAgain, Lift(PlatKind::DownWaitUp), KEEPS),
    (89, WalkAgain, StopLift, KEEPS),
    (90, WalkAgain, Door(DoorKind::Normal), KEEPS),
    (91, WalkAgain, Floor(FloorKind::ToCeiling), KEEPS),
    (92, WalkAgain, Floor(FloorKind::RaiseBy24), KEEPS),
    (95, WalkAgain, Lift(PlatKind::RaiseToNext), KEEPS),
    (97, WalkAgain, Teleport, KEEPS),
    (98, WalkAgain, Floor(FloorKind::TurboLower), KEEPS),
    (99, SwitchAgain, LockedDoor(Key::Blue), KEEPS),
    (101, SwitchOnce, Floor(FloorKind::ToCeiling), LOSES),
    (102, SwitchOnce, Floor(FloorKind::ToHighest), LOSES),
    (103, SwitchOnce, Door(DoorKind::Open), LOSES),
    (104, WalkOnce, Light(LightKind::ToLeast), LOSES),
    (105, WalkAgain, Door(DoorKind::BlazeRaise), KEEPS),
    (106, WalkAgain, Door(DoorKind::BlazeOpen), KEEPS),
    (107, WalkAgain, Door(DoorKind::BlazeClose), KEEPS),
    (108, WalkOnce, Door(DoorKind::BlazeRaise), LOSES),
    (109, WalkOnce, Door(DoorKind::BlazeOpen), LOSES),
    (110, WalkOnce, Door(DoorKind::BlazeClose), LOSES),
    (111, SwitchOnce, Door(DoorKind::BlazeRaise), LOSES),
    (112, SwitchOnce, Door(DoorKind::BlazeOpen), LOSES),
    (113, SwitchOnce, Door(DoorKind::BlazeClose), LOSES),
    (114, SwitchAgain, Door(DoorKind::BlazeRaise), KEEPS),
    (115, SwitchAgain, Door(DoorKind::BlazeOpen), KEEPS),
    (116, SwitchAgain, Door(DoorKind::BlazeClose), KEEPS),
    (117, Hand, ByHand, KEEPS),
    (118, Hand, ByHand, LOSES),
    (119, WalkOnce, Floor(FloorKind::ToNext), LOSES),
    (120, WalkAgain, Lift(PlatKind::Blazing), KEEPS),
    (121, WalkOnce, Lift(PlatKind::Blazing), LOSES),
    (122, SwitchOnce, Lift(PlatKind::Blazing), LOSES),
    (123, SwitchAgain, Lift(PlatKind::Blazing), KEEPS),
    (124, WalkOnce, SecretExit, KEEPS),
    (128, WalkAgain, Floor(FloorKind::ToNext), KEEPS),
    (129, WalkAgain, Floor(FloorKind::TurboToNext), KEEPS),
    (130, WalkOnce, Floor(FloorKind::TurboToNext), LOSES),
    (131, SwitchOnce, Floor(FloorKind::TurboToNext), LOSES),
    (132, SwitchAgain, Floor(FloorKind::TurboToNext), KEEPS),
    (133, SwitchOnce, LockedDoor(Key::Blue), LOSES),
    (134, SwitchAgain, LockedDoor(Key::Red), KEEPS),
    (135, SwitchOnce, LockedDoor(Key::Red), LOSES),
    (136, SwitchAgain, LockedDoor(Key::Yellow), KEEPS),
    (137, SwitchOnce, LockedDoor(Key::Yellow), LOSES),
    (138, SwitchAgain, Light(LightKind::To255), KEEPS),
    (139, SwitchAgain, Light(LightKind::To35), KEEPS),
];

/// The numbers that halt when they are crossed.
pub const CROSSED_HALTS: [u16; 20] = [
    6, 8, 25, 30, 37, 40, 44, 56, 57, 59, 72, 73, 74, 77, 84, 93, 94, 96, 100, 141,
];

/// The numbers that halt when they are used from the front.
pub const USED_HALTS: [u16; 9] = [7, 9, 41, 43, 49, 55, 65, 127, 140];

// The row of a number.
#[tactic(auto, unfolding(crate::specs::Table::rows))]
fn row_of(special: u16) -> Option<Row>
    ensures row { result ≡ row_of special }
    ensures by_hand { IfSome result (λ row. row.2 ≡ Action.ByHand → IsManual special) }
{
    first_with(&ROWS, special)
}

// The first of some rows with a number.
fn first_with(rows: &[Row], special: u16) -> Option<Row>
    ensures { result ≡ find (λ row. row.0 == special) rows.now }
{
    for row in rows {
        if row.0 == special {
            return Some(*row);
        }
    }
    None
}

fn is_walk(trigger: Trigger) -> bool
    ensures { result ≡ is_walk trigger }
{
    match trigger {
        Trigger::WalkOnce | Trigger::WalkAgain => true,
        Trigger::SwitchOnce | Trigger::SwitchAgain | Trigger::Hand => false,
    }
}

/// The row of a number that acts when its line is crossed.
#[tactic(auto, unfolding(crate::specs::Table::walk_row))]
pub fn walk_row(special: u16) -> Option<Row>
    ensures row { result ≡ walk_row special }
    ensures by_hand { IfSome result (λ row. row.2 ≡ Action.ByHand → IsManual special) }
{
    let row = row_of(special)?;
    if is_walk(row.1) { Some(row) } else { None }
}

/// The row of a number that acts when its line is used.
#[tactic(auto, unfolding(crate::specs::Table::use_row))]
pub fn use_row(special: u16) -> Option<Row>
    ensures row { result ≡ use_row special }
    ensures by_hand { IfSome result (λ row. row.2 ≡ Action.ByHand → IsManual special) }
{
    let row = row_of(special)?;
    if is_walk(row.1) { None } else { Some(row) }
}

/// Whether a number halts when it is crossed.
pub fn halts_crossed(special: u16) -> bool
    ensures { result ≡ is_among crossed_halts special }
{
    CROSSED_HALTS.iter().any(|number| *number == special)
}

/// Whether a number halts when it is used from the front.
pub fn halts_used(special: u16) -> bool
    ensures { result ≡ is_among used_halts special }
{
    USED_HALTS.iter().any(|number| *number == special)
}

impl Key {
    /// The key, as players hold them.
    pub fn bit(self) -> u16
        ensures { result ≡ key_bit self }
    {
        match self {
            Key::Blue => 1,
            Key::Yellow => 2,
            Key::Red => 4,
        }
    }
}
