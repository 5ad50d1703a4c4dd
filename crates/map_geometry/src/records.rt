//! The records of a level. Coordinates and heights are in fixed point: 65536 is one map unit.

/// A thing as the map places it: where it stands, the way it looks in degrees, its kind, and on which
/// skills it appears.
#[derive(Clone, Copy, Debug, PartialEq, Eq)]
pub struct Spot {
    pub x: i32,
    pub y: i32,
    pub angle: i16,
    pub number: u16,
    pub options: i16,
}

/// The slope of a line. A line without length is vertical.
#[derive(Clone, Copy, Debug, PartialEq, Eq)]
pub enum Slope {
    /// `dx` is not 0, and `dy` is.
    Horizontal,
    /// `dx` is 0.
    Vertical,
    /// `dy / dx`, as a quotient in fixed point, is above 0.
    Positive,
    /// Otherwise: the quotient is below 0, or so near to 0 that it is 0 in fixed point.
    Negative,
}

/// A rectangle with sides along the axes.
#[derive(Clone, Copy, Debug, PartialEq, Eq)]
pub struct Area {
    pub top: i32,
    pub bottom: i32,
    pub left: i32,
    pub right: i32,
}

/// A line from its first vertex to its second, with the sides that face its right and its left.
///
/// The fields from `x` on follow from the vertices and sides that the line names: its start and the way
/// to its end, the box of both, its slope, and the sectors in front and behind.
#[derive(Clone, Copy, Debug, PartialEq, Eq)]
pub struct Line {
    pub v1: u16,
    pub v2: u16,
    pub front_side: u16,
    pub back_side: Option<u16>,
    /// 1: blocks. 2: blocks things other than the player. 4: has two sides.
    pub flags: i16,
    pub special: u16,
    pub tag: i16,
    pub x: i32,
    pub y: i32,
    pub dx: i32,
    pub dy: i32,
    pub area: Area,
    pub slope: Slope,
    pub front: u32,
    pub back: Option<u32>,
}

/// One face of a line: its texture's offsets, and the sector that it faces.
#[derive(Clone, Copy, Debug, PartialEq, Eq)]
pub struct Side {
    pub x: i16,
    pub y: i16,
    pub sector: u16,
}

/// A place where lines meet.
#[derive(Clone, Copy, Debug, PartialEq, Eq)]
pub struct Vertex {
    pub x: i32,
    pub y: i32,
}

/// A piece of a line, along one of its sides: 0 the front, 1 the back.
#[derive(Clone, Copy, Debug, PartialEq, Eq)]
pub struct Seg {
    pub v1: i16,
    pub v2: i16,
    pub angle: i16,
    pub line: u16,
    pub side: u16,
    pub offset: i16,
}

/// A convex piece of a sector: its segs, by their number and the first of them, and its sector, which is
/// that of its first seg's side.
#[derive(Clone, Copy, Debug, PartialEq, Eq)]
pub struct Subsector {
    pub count: u16,
    pub first: u16,
    pub sector: u32,
}

/// A line that cuts the map in two, and what lies on its front (0) and on its back (1): a node, or,
/// from 0x8000 on, a subsector.
#[derive(Clone, Copy, Debug, PartialEq, Eq)]
pub struct Node {
    pub x: i32,
    pub y: i32,
    pub dx: i32,
    pub dy: i32,
    pub child_0: u16,
    pub child_1: u16,
}

/// A sector as the map gives it.
#[derive(Clone, Copy, Debug, PartialEq, Eq)]
pub struct Ground {
    pub floor: i32,
    pub ceiling: i32,
    pub light: i16,
    pub special: u16,
    pub tag: i16,
}

/// A way from a place: the form in which traces and lines meet.
#[derive(Clone, Copy, Debug, PartialEq, Eq)]
pub struct DivLine {
    pub x: i32,
    pub y: i32,
    pub dx: i32,
    pub dy: i32,
}
