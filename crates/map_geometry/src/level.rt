//! A level: lists whose every reference leads somewhere.
ghost use Rattle.std.specs.Prelude.{◌≡◌, ◌*◌, ◌<◌, ◌^◌, length};
ghost use Rattle.map_geometry.specs.Lists.{nth_thing, nth_line, nth_side, nth_vertex, nth_seg, nth_subsector, nth_node, nth_sector, nth_cell, nth_word};
ghost use Rattle.map_geometry.specs.Nodes.{WalksEnd};
ghost use Rattle.map_geometry.specs.Level.{AreParts, lists_of, IsLineIn, IsSubsectorIn, IsNodeIn, IsCellIn};

use crate::known::Known;
use crate::records::{Ground, Line, Node, Seg, Side, Spot, Subsector, Vertex};
use crate::sectors::Outline;
use std::marker::Model;

/// What a level is made of.
#[derive(Drop)]
pub struct LevelParts {
    pub things: Vec<Spot>,
    pub lines: Vec<Line>,
    pub sides: Vec<Side>,
    pub vertices: Vec<Vertex>,
    pub segs: Vec<Seg>,
    pub subsectors: Vec<Subsector>,
    pub nodes: Vec<Node>,
    pub sectors: Vec<Ground>,
    /// The place of each block's list in `words`, row by row from the south.
    pub cells: Vec<u32>,
    /// The words of the block map.
    pub words: Vec<u16>,
    /// The block map's south-west corner, in fixed point.
    pub origin_x: i32,
    pub origin_y: i32,
    /// The block map's columns and rows. A block is 128 map units wide and high.
    pub width: u32,
    pub height: u32,
    /// The map's label is of the form `ExMy`.
    pub episode_form: bool,
    /// The numbers of the lines of each sector, one sector after the other, and where each one's stand.
    pub sector_lines: Vec<u32>,
    pub outlines: Vec<Outline>,
}

/// The lists of a level, of which each reference leads somewhere. A number that a reader gives need not be
/// tested again. Beside them the level may know the sectors of some places.
#[derive(Drop)]
pub struct Level {
    pub(crate) parts: LevelParts,
    /// In the order of x and then of y.
    pub(crate) known: Vec<Known>,
}

impl Model for Level {
    ghost use Rattle.map_geometry.specs.Lists.{Lists};
    ghost use Rattle.map_geometry.specs.Level.{lists_of};
    ghost use Rattle.map_geometry.specs.Places.{IsKept};

    ghost Value = { Lists };

    ghost view = { λ level. lists_of level.parts };

    ghost invariant = { λ level. IsKept level.parts level.known.items };
}

impl Level {
    /// The level of these parts, which were judged already.
    pub fn new(parts: LevelParts) -> Self
        requires { AreParts parts }
        ensures { result ≡ lists_of parts }
    {
        let known = Vec::new(*parts.things.allocator());
        Level { parts, known }
    }

    pub fn thing_count(&self) -> usize
        ensures { result ≡ length self.now.things }
    {
        self.parts.things.len()
    }

    pub fn thing(&self, i: usize) -> Spot
        requires { i < length self.now.things }
        ensures { result ≡ nth_thing self.now i }
    {
        self.parts.things[i]
    }

    pub fn line_count(&self) -> usize
        ensures { result ≡ length self.now.lines }
    {
        self.parts.lines.len()
    }

    /// A line. Its vertices, sides and sectors are there.
    pub fn line(&self, i: usize) -> Line
        requires { i < length self.now.lines }
        ensures entry { result ≡ nth_line self.now i }
        ensures sound { IsLineIn self.now result }
    {
        self.parts.lines[i]
    }

    pub fn side_count(&self) -> usize
        ensures { result ≡ length self.now.sides }
    {
        self.parts.sides.len()
    }

    pub fn side(&self, i: usize) -> Side
        requires { i < length self.now.sides }
        ensures { result ≡ nth_side self.now i }
    {
        self.parts.sides[i]
    }

    pub fn vertex_count(&self) -> usize
        ensures { result ≡ length self.now.vertices }
    {
        self.parts.vertices.len()
    }

    pub fn vertex(&self, i: usize) -> Vertex
        requires { i < length self.now.vertices }
        ensures { result ≡ nth_vertex self.now i }
    {
        self.parts.vertices[i]
    }

    pub fn seg_count(&self) -> usize
        ensures { result ≡ length self.now.segs }
    {
        self.parts.segs.len()
    }

    pub fn seg(&self, i: usize) -> Seg
        requires { i < length self.now.segs }
        ensures { result ≡ nth_seg self.now i }
    {
        self.parts.segs[i]
    }

    /// There is at least one subsector.
    pub fn subsector_count(&self) -> usize
        ensures count { result ≡ length self.now.subsectors }
        ensures some { 0 < result }
    {
        self.parts.subsectors.len()
    }

    /// A subsector. Its first seg and its sector are there.
    pub fn subsector(&self, i: usize) -> Subsector
        requires { i < length self.now.subsectors }
        ensures entry { result ≡ nth_subsector self.now i }
        ensures sound { IsSubsectorIn self.now result }
    {
        self.parts.subsectors[i]
    }

    /// No way down from the last node passes more nodes than this. There is a subsector, also without nodes.
    pub fn node_count(&self) -> usize
        ensures count { result ≡ length self.now.nodes }
        ensures ends { WalksEnd self.now.nodes }
        ensures subsectors { 0 < length self.now.subsectors }
    {
        self.parts.nodes.len()
    }

    /// A node. Its children are there.
    pub fn node(&self, i: usize) -> Node
        requires { i < length self.now.nodes }
        ensures entry { result ≡ nth_node self.now i }
        ensures sound { IsNodeIn self.now result }
    {
        self.parts.nodes[i]
    }

    pub fn sector_count(&self) -> usize
        ensures { result ≡ length self.now.sectors }
    {
        self.parts.sectors.len()
    }

    pub fn sector(&self, i: usize) -> Ground
        requires { i < length self.now.sectors }
        ensures { result ≡ nth_sector self.now i }
    {
        self.parts.sectors[i]
    }

    /// How many blocks there are.
    pub fn cell_count(&self) -> usize
        ensures count { result ≡ length self.now.cells }
        ensures grid { result ≡ self.now.width * self.now.height }
    {
        self.parts.cells.len()
    }

    /// The place of a block's list among the words. The list ends, and its entries are numbers of lines.
    pub fn cell(&self, i: usize) -> u32
        requires { i < length self.now.cells }
        ensures entry { result ≡ nth_cell self.now i }
        ensures sound { IsCellIn self.now result }
    {
        self.parts.cells[i]
    }

    pub fn word_count(&self) -> usize
        ensures { result ≡ length self.now.words }
    {
        self.parts.words.len()
    }

    pub fn word(&self, i: usize) -> u16
        requires { i < length self.now.words }
        ensures { result ≡ nth_word self.now i }
    {
        self.parts.words[i]
    }

    pub fn origin_x(&self) -> i32
        ensures { result ≡ self.now.origin_x }
    {
        self.parts.origin_x
    }

    pub fn origin_y(&self) -> i32
        ensures { result ≡ self.now.origin_y }
    {
        self.parts.origin_y
    }

    /// The number of the grid's columns: at least one, and below 2^15.
    pub fn width(&self) -> u32
        ensures value { result ≡ self.now.width }
        ensures some { 0 < result }
        ensures below { result < 2 ^ 15 }
    {
        self.parts.width
    }

    /// The number of the grid's rows: at least one, and below 2^15. The grid's blocks are the cells.
    pub fn height(&self) -> u32
        ensures value { result ≡ self.now.height }
        ensures some { 0 < result }
        ensures below { result < 2 ^ 15 }
        ensures cells { length self.now.cells ≡ self.now.width * result }
    {
        self.parts.height
    }

    pub fn episode_form(&self) -> bool
        ensures { result ≡ self.now.episode_form }
    {
        self.parts.episode_form
    }
}
