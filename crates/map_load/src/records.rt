//! The records of a map's lumps, each read at its place in the file. All numbers are little endian.

ghost use Rattle.std.specs.Prelude.{◌≡◌, ◌+◌, ◌≤◌, ◌*ℤ◌, ◌-ℤ◌, pos, length, option_map, slice_index_or};
ghost use Rattle.fixed_angle.specs.Fixed.{wrap32};
ghost use Rattle.map_geometry.specs.Derived.{box_of, sector_of_seg, sector_of_side, slope_of};
ghost use Rattle.map_geometry.specs.Lists.{no_line, no_seg};
ghost use Rattle.wad_lumps.specs.Spelled.{word_at};
ghost use Rattle.map_load.specs.Spelled.{back_side_of, between, facing, length_at, line_at, line_words_at, node_at, ground_at, seg_at, short_at, side_at, subsector_at, thing_at, vertex_at, vertex_of, way};

use crate::subsectors::side_on;
use byteorder::{ByteOrder, LittleEndian};
use fixed_angle::fixed_div;
use map_geometry::{Area, Ground, Line, Node, Seg, Side, Slope, Spot, Subsector, Vertex};

/// One map unit in fixed point.
const UNIT: i32 = 65536;

/// A line that has no back side names this one.
const NO_SIDE: u16 = 0xFFFF;

/// A line of zeros.
const NO_LINE: Line = Line {
    v1: 0,
    v2: 0,
    front_side: 0,
    back_side: None,
    flags: 0,
    special: 0,
    tag: 0,
    x: 0,
    y: 0,
    dx: 0,
    dy: 0,
    area: Area {
        top: 0,
        bottom: 0,
        left: 0,
        right: 0,
    },
    slope: Slope::Vertical,
    front: 0,
    back: None,
};

/// The unsigned number of 16 bits at a place.
#[tactic(auto, unfolding(wad_lumps::specs::Spelled::word_at))]
pub fn word(bytes: &[u8], at: usize) -> u16
    requires { at + 2 ≤ length bytes.now }
    ensures { result ≡ word_at bytes.now at }
{
    LittleEndian::read_u16(&bytes[at..])
}

/// The signed number of 16 bits at a place.
fn short(bytes: &[u8], at: usize) -> i16
    requires { at + 2 ≤ length bytes.now }
    ensures { result ≡ short_at bytes.now at }
{
    word(bytes, at).cast_signed()
}

/// A length in map units, in fixed point.
pub fn units(number: i16) -> i32
    ensures { result ≡ number *ℤ pos 65536 }
{
    i32::from(number) * UNIT
}

/// The length at a place.
fn length_in_units(bytes: &[u8], at: usize) -> i32
    requires { at + 2 ≤ length bytes.now }
    ensures { result ≡ length_at bytes.now at }
{
    units(short(bytes, at))
}

#[tactic(auto, unfolding(crate::specs::Spelled::thing_at))]
pub fn thing(bytes: &[u8], at: usize) -> Spot
    requires { at + 10 ≤ length bytes.now }
    ensures { result ≡ thing_at bytes.now at }
{
    Spot {
        x: length_in_units(bytes, at),
        y: length_in_units(bytes, at + 2),
        angle: short(bytes, at + 4),
        number: word(bytes, at + 6),
        options: short(bytes, at + 8),
    }
}

#[tactic(auto, unfolding(crate::specs::Spelled::side_at))]
pub fn side(bytes: &[u8], at: usize) -> Side
    requires { at + 30 ≤ length bytes.now }
    ensures { result ≡ side_at bytes.now at }
{
    Side {
        x: short(bytes, at),
        y: short(bytes, at + 2),
        sector: word(bytes, at + 28),
    }
}

#[tactic(auto, unfolding(crate::specs::Spelled::vertex_at))]
pub fn vertex(bytes: &[u8], at: usize) -> Vertex
    requires { at + 4 ≤ length bytes.now }
    ensures { result ≡ vertex_at bytes.now at }
{
    Vertex {
        x: length_in_units(bytes, at),
        y: length_in_units(bytes, at + 2),
    }
}

#[tactic(auto, unfolding(crate::specs::Spelled::seg_at))]
pub fn seg(bytes: &[u8], at: usize) -> Seg
    requires { at + 12 ≤ length bytes.now }
    ensures { result ≡ seg_at bytes.now at }
{
    Seg {
        v1: short(bytes, at),
        v2: short(bytes, at + 2),
        angle: short(bytes, at + 4),
        line: word(bytes, at + 6),
        side: word(bytes, at + 8),
        offset: short(bytes, at + 10),
    }
}

#[tactic(auto, unfolding(crate::specs::Spelled::node_at))]
pub fn node(bytes: &[u8], at: usize) -> Node
    requires { at + 28 ≤ length bytes.now }
    ensures { result ≡ node_at bytes.now at }
{
    Node {
        x: length_in_units(bytes, at),
        y: length_in_units(bytes, at + 2),
        dx: length_in_units(bytes, at + 4),
        dy: length_in_units(bytes, at + 6),
        child_0: word(bytes, at + 24),
        child_1: word(bytes, at + 26),
    }
}

#[tactic(auto, unfolding(crate::specs::Spelled::ground_at))]
pub fn sector(bytes: &[u8], at: usize) -> Ground
    requires { at + 26 ≤ length bytes.now }
    ensures { result ≡ ground_at bytes.now at }
{
    Ground {
        floor: length_in_units(bytes, at),
        ceiling: length_in_units(bytes, at + 2),
        light: short(bytes, at + 20),
        special: word(bytes, at + 22),
        tag: short(bytes, at + 24),
    }
}

/// The back side that a line's word names.
fn back_side(word: u16) -> Option<u16>
    ensures { result ≡ back_side_of word }
{
    if word == NO_SIDE { None } else { Some(word) }
}

/// How far one number is from another, so far as 32 bits tell.
fn way_between(from: i32, to: i32) -> i32
    ensures { result ≡ way from to }
{
    to.wrapping_sub(from)
}

/// The slope of a way.
fn slope(dx: i32, dy: i32) -> Slope
    ensures { result ≡ slope_of dx dy }
{
    if dx == 0 {
        Slope::Vertical
    } else if dy == 0 {
        Slope::Horizontal
    } else if fixed_div(dy, dx) > 0 {
        Slope::Positive
    } else {
        Slope::Negative
    }
}

/// The least rectangle that holds two places.
fn box_around(a: Vertex, b: Vertex) -> Area
    ensures { result ≡ box_of a b }
{
    Area {
        top: a.y.max(b.y),
        bottom: a.y.min(b.y),
        left: a.x.min(b.x),
        right: a.x.max(b.x),
    }
}

/// The vertex with a number, and (0, 0) where there is none.
fn vertex_with(vertices: &[Vertex], number: u16) -> Vertex
    ensures { result ≡ vertex_of vertices.now number }
{
    match vertices.get(usize::from(number)) {
        Some(vertex) => *vertex,
        None => Vertex { x: 0, y: 0 },
    }
}

/// The line with a number, and a line of zeros where there is none.
fn line_with(lines: &[Line], number: u16) -> Line
    ensures { result ≡ slice_index_or lines.now number no_line }
{
    match lines.get(usize::from(number)) {
        Some(line) => *line,
        None => NO_LINE,
    }
}

/// The seg with a number, and a seg of zeros where there is none.
fn seg_with(segs: &[Seg], number: u16) -> Seg
    ensures { result ≡ slice_index_or segs.now number no_seg }
{
    match segs.get(usize::from(number)) {
        Some(seg) => *seg,
        None => Seg {
            v1: 0,
            v2: 0,
            angle: 0,
            line: 0,
            side: 0,
            offset: 0,
        },
    }
}

/// The sector that a side faces, and 0 where the side is not there.
fn sector_faced(sides: &[Side], number: u16) -> u32
    ensures { result ≡ sector_of_side sides.now number }
{
    match sides.get(usize::from(number)) {
        Some(side) => u32::from(side.sector),
        None => 0,
    }
}

/// The sector behind a line, where it has a back side.
fn back_faced(sides: &[Side], back_side: Option<u16>) -> Option<u32>
    ensures { result ≡ option_map (sector_of_side sides.now) back_side }
{
    match back_side {
        Some(side) => Some(sector_faced(sides, side)),
        None => None,
    }
}

/// What a line's record spells. The other fields are left at 0.
#[tactic(auto, unfolding(crate::specs::Spelled::line_words_at))]
fn line_words(bytes: &[u8], at: usize) -> Line
    requires { at + 14 ≤ length bytes.now }
    ensures { result ≡ line_words_at bytes.now at }
{
    Line {
        v1: word(bytes, at),
        v2: word(bytes, at + 2),
        flags: short(bytes, at + 4),
        special: word(bytes, at + 6),
        tag: short(bytes, at + 8),
        front_side: word(bytes, at + 10),
        back_side: back_side(word(bytes, at + 12)),
        ..NO_LINE
    }
}

/// The line with its start, way, box and slope, from the places of its vertices.
#[tactic(auto, unfolding(crate::specs::Spelled::between))]
fn line_between(from: Vertex, to: Vertex, line: Line) -> Line
    ensures { result ≡ between from to line }
{
    let dx = way_between(from.x, to.x);
    let dy = way_between(from.y, to.y);
    Line {
        x: from.x,
        y: from.y,
        dx,
        dy,
        area: box_around(from, to),
        slope: slope(dx, dy),
        ..line
    }
}

/// The line with its sectors, from its sides.
#[tactic(auto, unfolding(crate::specs::Spelled::facing))]
fn line_facing(sides: &[Side], line: Line) -> Line
    ensures { result ≡ facing sides.now line }
{
    Line {
        front: sector_faced(sides, line.front_side),
        back: back_faced(sides, line.back_side),
        ..line
    }
}

/// A line with the fields that follow from the vertices and sides that it names.
#[tactic(auto, unfolding(crate::specs::Spelled::line_at))]
pub fn line(bytes: &[u8], vertices: &[Vertex], sides: &[Side], at: usize) -> Line
    requires { at + 14 ≤ length bytes.now }
    ensures { result ≡ line_at bytes.now vertices.now sides.now at }
{
    let line = line_words(bytes, at);
    let from = vertex_with(vertices, line.v1);
    let to = vertex_with(vertices, line.v2);
    line_facing(sides, line_between(from, to, line))
}

/// The sector that a seg faces, and 0 where its line or side is not there.
fn sector_of(lines: &[Line], sides: &[Side], seg: &Seg) -> u32
    ensures { result ≡ sector_of_seg lines.now sides.now seg.now }
{
    match side_on(&line_with(lines, seg.line), seg.side) {
        Some(side) => sector_faced(sides, side),
        None => 0,
    }
}

/// A subsector with the sector that its first seg faces.
#[tactic(auto, unfolding(crate::specs::Spelled::subsector_at))]
pub fn subsector(bytes: &[u8], lines: &[Line], sides: &[Side], segs: &[Seg], at: usize) -> Subsector
    requires { at + 4 ≤ length bytes.now }
    ensures { result ≡ subsector_at bytes.now lines.now sides.now segs.now at }
{
    let first = word(bytes, at + 2);
    Subsector {
        count: word(bytes, at),
        first,
        sector: sector_of(lines, sides, &seg_with(segs, first)),
    }
}
