//! What numbers do on a strip whose sectors both have the line's tag.

use crate::cases::Last::{self, Door, Floor, Lift, Nothing, Strobe};
use cow_world::DoorKind::{BlazeClose, BlazeOpen, BlazeRaise, Close, Close30, Normal, Open};
use cow_world::FloorKind::{
    RaiseBy24, ToCeiling, ToHighest, ToLowest, ToNext, TurboLower, TurboToNext,
};
use cow_world::PlatKind::{self, Blazing, DownWaitUp, Perpetual, RaiseBy32, RaiseToNext};

/// The lights as the level has them.
pub(crate) const STILL: (i16, i16) = (128, 160);

/// The number, the player's keys (blue 1, yellow 2, red 4), how many thinkers are made, the last of them, the lights, how
/// the level is left, the line's special after, and whether the line acted.
pub(crate) type Row = (u16, u8, u32, Last, (i16, i16), u8, u16, bool);

/// Numbers that act when they are crossed.
pub(crate) const CROSSED: [Row; 50] = [
    (2, 0, 2, Door(Open), STILL, 0, 0, true),
    (3, 0, 2, Door(Close), STILL, 0, 0, true),
    (4, 0, 2, Door(Normal), STILL, 0, 0, true),
    (5, 0, 2, Floor(ToCeiling), STILL, 0, 0, true),
    (10, 0, 2, Lift(DownWaitUp), STILL, 0, 0, true),
    (12, 0, 0, Nothing, (160, 160), 0, 0, true),
    (13, 0, 0, Nothing, (255, 255), 0, 0, true),
    (16, 0, 2, Door(Close30), STILL, 0, 0, true),
    (17, 0, 2, Strobe, STILL, 0, 0, true),
    (19, 0, 2, Floor(ToHighest), STILL, 0, 0, true),
    (22, 0, 2, Lift(RaiseToNext), STILL, 0, 0, true),
    (35, 0, 0, Nothing, (35, 35), 0, 0, true),
    (36, 0, 2, Floor(TurboLower), STILL, 0, 0, true),
    (38, 0, 2, Floor(ToLowest), STILL, 0, 0, true),
    (39, 0, 0, Nothing, STILL, 0, 0, true),
    (52, 0, 0, Nothing, STILL, 1, 52, true),
    (53, 0, 2, Lift(Perpetual), STILL, 0, 0, true),
    (54, 0, 0, Nothing, STILL, 0, 0, true),
    (58, 0, 2, Floor(RaiseBy24), STILL, 0, 0, true),
    (75, 0, 2, Door(Close), STILL, 0, 75, true),
    (76, 0, 2, Door(Close30), STILL, 0, 76, true),
    (79, 0, 0, Nothing, (35, 35), 0, 79, true),
    (80, 0, 0, Nothing, (160, 160), 0, 80, true),
    (81, 0, 0, Nothing, (255, 255), 0, 81, true),
    (82, 0, 2, Floor(ToLowest), STILL, 0, 82, true),
    (83, 0, 2, Floor(ToHighest), STILL, 0, 83, true),
    (86, 0, 2, Door(Open), STILL, 0, 86, true),
    (87, 0, 2, Lift(Perpetual), STILL, 0, 87, true),
    (88, 0, 2, Lift(DownWaitUp), STILL, 0, 88, true),
    (89, 0, 0, Nothing, STILL, 0, 89, true),
    (90, 0, 2, Door(Normal), STILL, 0, 90, true),
    (91, 0, 2, Floor(ToCeiling), STILL, 0, 91, true),
    (92, 0, 2, Floor(RaiseBy24), STILL, 0, 92, true),
    (95, 0, 2, Lift(RaiseToNext), STILL, 0, 95, true),
    (97, 0, 0, Nothing, STILL, 0, 97, true),
    (98, 0, 2, Floor(TurboLower), STILL, 0, 98, true),
    (104, 0, 0, Nothing, (128, 128), 0, 0, true),
    (105, 0, 2, Door(BlazeRaise), STILL, 0, 105, true),
    (106, 0, 2, Door(BlazeOpen), STILL, 0, 106, true),
    (107, 0, 2, Door(BlazeClose), STILL, 0, 107, true),
    (108, 0, 2, Door(BlazeRaise), STILL, 0, 0, true),
    (109, 0, 2, Door(BlazeOpen), STILL, 0, 0, true),
    (110, 0, 2, Door(BlazeClose), STILL, 0, 0, true),
    (119, 0, 2, Floor(ToNext), STILL, 0, 0, true),
    (120, 0, 2, Lift(Blazing), STILL, 0, 120, true),
    (121, 0, 2, Lift(Blazing), STILL, 0, 0, true),
    (124, 0, 0, Nothing, STILL, 2, 124, true),
    (128, 0, 2, Floor(ToNext), STILL, 0, 128, true),
    (129, 0, 2, Floor(TurboToNext), STILL, 0, 129, true),
    (130, 0, 2, Floor(TurboToNext), STILL, 0, 0, true),
];

/// Switches.
pub(crate) const USED: [Row; 50] = [
    (11, 0, 0, Nothing, STILL, 1, 0, true),
    (14, 0, 2, Lift(RaiseBy32), STILL, 0, 0, true),
    (15, 0, 2, Lift(PlatKind::RaiseBy24), STILL, 0, 0, true),
    (18, 0, 2, Floor(ToNext), STILL, 0, 0, true),
    (20, 0, 2, Lift(RaiseToNext), STILL, 0, 0, true),
    (21, 0, 2, Lift(DownWaitUp), STILL, 0, 0, true),
    (23, 0, 2, Floor(ToLowest), STILL, 0, 0, true),
    (29, 0, 2, Door(Normal), STILL, 0, 0, true),
    (42, 0, 2, Door(Close), STILL, 0, 42, true),
    (45, 0, 2, Floor(ToHighest), STILL, 0, 45, true),
    (50, 0, 2, Door(Close), STILL, 0, 0, true),
    (51, 0, 0, Nothing, STILL, 2, 0, true),
    (60, 0, 2, Floor(ToLowest), STILL, 0, 60, true),
    (61, 0, 2, Door(Open), STILL, 0, 61, true),
    (62, 0, 2, Lift(DownWaitUp), STILL, 0, 62, true),
    (63, 0, 2, Door(Normal), STILL, 0, 63, true),
    (64, 0, 2, Floor(ToCeiling), STILL, 0, 64, true),
    (66, 0, 2, Lift(PlatKind::RaiseBy24), STILL, 0, 66, true),
    (67, 0, 2, Lift(RaiseBy32), STILL, 0, 67, true),
    (68, 0, 2, Lift(RaiseToNext), STILL, 0, 68, true),
    (69, 0, 2, Floor(ToNext), STILL, 0, 69, true),
    (70, 0, 2, Floor(TurboLower), STILL, 0, 70, true),
    (71, 0, 2, Floor(TurboLower), STILL, 0, 0, true),
    (99, 6, 0, Nothing, STILL, 0, 99, false),
    (99, 1, 2, Door(BlazeOpen), STILL, 0, 99, true),
    (101, 0, 2, Floor(ToCeiling), STILL, 0, 0, true),
    (102, 0, 2, Floor(ToHighest), STILL, 0, 0, true),
    (103, 0, 2, Door(Open), STILL, 0, 0, true),
    (111, 0, 2, Door(BlazeRaise), STILL, 0, 0, true),
    (112, 0, 2, Door(BlazeOpen), STILL, 0, 0, true),
    (113, 0, 2, Door(BlazeClose), STILL, 0, 0, true),
    (114, 0, 2, Door(BlazeRaise), STILL, 0, 114, true),
    (115, 0, 2, Door(BlazeOpen), STILL, 0, 115, true),
    (116, 0, 2, Door(BlazeClose), STILL, 0, 116, true),
    (122, 0, 2, Lift(Blazing), STILL, 0, 0, true),
    (123, 0, 2, Lift(Blazing), STILL, 0, 123, true),
    (131, 0, 2, Floor(TurboToNext), STILL, 0, 0, true),
    (132, 0, 2, Floor(TurboToNext), STILL, 0, 132, true),
    (133, 6, 0, Nothing, STILL, 0, 133, false),
    (133, 1, 2, Door(BlazeOpen), STILL, 0, 0, true),
    (134, 3, 0, Nothing, STILL, 0, 134, false),
    (134, 4, 2, Door(BlazeOpen), STILL, 0, 134, true),
    (135, 3, 0, Nothing, STILL, 0, 135, false),
    (135, 4, 2, Door(BlazeOpen), STILL, 0, 0, true),
    (136, 5, 0, Nothing, STILL, 0, 136, false),
    (136, 2, 2, Door(BlazeOpen), STILL, 0, 136, true),
    (137, 5, 0, Nothing, STILL, 0, 137, false),
    (137, 2, 2, Door(BlazeOpen), STILL, 0, 0, true),
    (138, 0, 0, Nothing, (255, 255), 0, 138, true),
    (139, 0, 0, Nothing, (35, 35), 0, 139, true),
];

/// Doors that are opened by hand.
pub(crate) const BY_HAND: [Row; 16] = [
    (1, 0, 1, Door(Normal), STILL, 0, 1, true),
    (26, 6, 0, Nothing, STILL, 0, 26, false),
    (26, 1, 1, Door(Normal), STILL, 0, 26, true),
    (27, 5, 0, Nothing, STILL, 0, 27, false),
    (27, 2, 1, Door(Normal), STILL, 0, 27, true),
    (28, 3, 0, Nothing, STILL, 0, 28, false),
    (28, 4, 1, Door(Normal), STILL, 0, 28, true),
    (31, 0, 1, Door(Open), STILL, 0, 0, true),
    (32, 6, 0, Nothing, STILL, 0, 32, false),
    (32, 1, 1, Door(Open), STILL, 0, 0, true),
    (33, 3, 0, Nothing, STILL, 0, 33, false),
    (33, 4, 1, Door(Open), STILL, 0, 0, true),
    (34, 5, 0, Nothing, STILL, 0, 34, false),
    (34, 2, 1, Door(Open), STILL, 0, 0, true),
    (117, 0, 1, Door(BlazeRaise), STILL, 0, 117, true),
    (118, 0, 1, Door(BlazeOpen), STILL, 0, 0, true),
];

pub(crate) const CROSSED_HALTS: [u16; 20] = [
    6, 8, 25, 30, 37, 40, 44, 56, 57, 59, 72, 73, 74, 77, 84, 93, 94, 96, 100, 141,
];

pub(crate) const USED_HALTS: [u16; 9] = [7, 9, 41, 43, 49, 55, 65, 127, 140];
