//! The plan of a gallery: its rooms and its lines.
ghost use Rattle.std.specs.Prelude.{◌≡◌, ◌≤◌, ◌<◌, ◌+◌, length, map, IfOk, OnOk, ◌++◌, All};
ghost use Rattle.gallery_gen.specs.Plan.{room_of, border, wall, walls, ends, joining, join, lines_of};

use doom_edge::Memory;
use std::alloc::Global;

/// The north and the south of all rooms, in map units.
const NORTH: i16 = 128;

const SOUTH: i16 = -128;

/// The flag of a line that blocks, and that of one with two sides.
const BLOCKS: u16 = 1;

const TWO_SIDED: u16 = 4;

/// No side.
const NONE: u16 = 65_535;

const ROOM_SPECIALS: [u16; 8] = [0, 1, 2, 3, 8, 12, 13, 17];

const JOIN_SPECIALS: [u16; 6] = [0, 88, 79, 17, 87, 82];

/// A room: its floor in map units, its light, and its sector's special.
#[derive(Clone, Copy, Debug, PartialEq, Eq)]
pub struct Room {
    pub floor: u16,
    pub light: u16,
    pub special: u16,
}

/// A line between two vertices, whose places are in map units, with the numbers of its sides and the rooms on them.
#[derive(Clone, Copy, Debug, PartialEq, Eq)]
pub struct PlanLine {
    pub v1: u16,
    pub v2: u16,
    pub x1: i16,
    pub y1: i16,
    pub x2: i16,
    pub y2: i16,
    pub flags: u16,
    pub special: u16,
    pub tag: u16,
    pub side: u16,
    pub back_side: u16,
    pub front: u16,
    pub back: Option<u16>,
}

fn room_of(drawn: u16) -> Room
    ensures { result ≡ room_of drawn }
{
    Room {
        floor: drawn % 4 * 8,
        light: 96 + drawn / 4 % 8 * 16,
        special: ROOM_SPECIALS[usize::from(drawn / 32 % 8)],
    }
}

/// The rooms of numbers that were drawn.
pub fn rooms_of(alloc: Global, drawn: &[u16]) -> Result<Vec<Room>, Memory>
    ensures { IfOk result (λ rooms. rooms.items ≡ map room_of drawn.now) }
{
    let mut rooms = Vec::new(alloc);
    for number in drawn {
        rooms.push(room_of(*number))?;
    }
    Ok(rooms)
}

/// The border west of a room.
pub fn border(room: u16) -> i16
    requires { room ≤ 8 }
    ensures { result ≡ border room }
{
    (i32::from(room) * 256 - 128) as i16
}

fn wall(number: u16, from: (i16, i16), to: (i16, i16), room: u16) -> PlanLine
    requires { number < 32768 }
    ensures { result ≡ wall number from.0 from.1 to.0 to.1 room }
{
    PlanLine {
        v1: 2 * number,
        v2: 2 * number + 1,
        x1: from.0,
        y1: from.1,
        x2: to.0,
        y2: to.1,
        flags: BLOCKS,
        special: 0,
        tag: 0,
        side: number,
        back_side: NONE,
        front: room,
        back: None,
    }
}

fn push_walls(lines: &mut Vec<PlanLine>, room: u16) -> Result<(), Memory>
    requires { room < 8 }
    ensures { OnOk result (lines.new.items ≡ lines.old.items ++ walls room) }
{
    let west = border(room);
    let east = border(room + 1);
    lines.push(wall(2 * room, (west, NORTH), (east, NORTH), room))?;
    lines.push(wall(2 * room + 1, (east, SOUTH), (west, SOUTH), room))?;
    Ok(())
}

fn push_ends(lines: &mut Vec<PlanLine>, rooms: u16) -> Result<(), Memory>
    requires some { 0 < rooms }
    requires few { rooms ≤ 8 }
    ensures { OnOk result (lines.new.items ≡ lines.old.items ++ ends rooms) }
{
    let west = border(0);
    let east = border(rooms);
    lines.push(wall(2 * rooms, (west, SOUTH), (west, NORTH), 0))?;
    lines.push(wall(2 * rooms + 1, (east, NORTH), (east, SOUTH), rooms - 1))?;
    Ok(())
}

fn joining(number: u16, side: u16, room: u16) -> PlanLine
    requires number { number < 32768 }
    requires side { side < 65535 }
    requires room { room < 8 }
    ensures { result ≡ joining number side room }
{
    let x = border(room + 1);
    PlanLine {
        v1: 2 * number,
        v2: 2 * number + 1,
        x1: x,
        y1: NORTH,
        x2: x,
        y2: SOUTH,
        flags: TWO_SIDED,
        special: JOIN_SPECIALS[usize::from(room % 6)],
        tag: room,
        side,
        back_side: side + 1,
        front: room,
        back: Some(room + 1),
    }
}

fn join(rooms: u16, room: u16) -> PlanLine
    requires few { rooms ≤ 8 }
    requires below { room < 8 }
    ensures { result ≡ join rooms room }
{
    joining(2 * rooms + 2 + room, 2 * rooms + 2 + 2 * room, room)
}

/// All lines, in the order of their numbers.
pub fn lines_of(alloc: Global, rooms: u16) -> Result<Vec<PlanLine>, Memory>
    requires some { 0 < rooms }
    requires few { rooms ≤ 8 }
    ensures { IfOk result (λ lines. lines.items ≡ lines_of rooms) }
{
    let mut lines = Vec::new(alloc);
    for room in 0..rooms {
        push_walls(&mut lines, room)?;
    }
    push_ends(&mut lines, rooms)?;
    for room in 0..rooms - 1 {
        lines.push(join(rooms, room))?;
    }
    Ok(lines)
}
