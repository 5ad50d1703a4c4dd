//! The lists that a map's lumps spell. A lump is a span of the file: its place, and its length in
//! bytes. What is left behind its last whole record is ignored.

ghost use Rattle.std.specs.Prelude.{◌≡◌, IfOk};
ghost use Rattle.wad_lumps.specs.Spelled.{word_at};
ghost use Rattle.wad_lumps.specs.Directory.{LiesIn};
ghost use Rattle.map_load.specs.Spelled.{line_at, node_at, records, ground_at, seg_at, side_at, subsector_at, thing_at, vertex_at};

use crate::records;
use map_geometry::{Ground, Line, Node, Seg, Side, Spot, Subsector, Vertex};
use std::alloc::{AllocError, Global};

#[tactic(auto, unfolding(crate::specs::Spelled::records))]
pub fn things(alloc: Global, bytes: &[u8], span: (usize, usize)) -> Result<Vec<Spot>, AllocError>
    requires { LiesIn bytes.now span }
    ensures { IfOk result (λ things. things.items ≡ records (thing_at bytes.now) 10 span) }
{
    (0..span.1 / 10)
        .map(|i| records::thing(bytes, span.0 + i * 10))
        .collect(alloc)
}

#[tactic(auto, unfolding(crate::specs::Spelled::records))]
pub fn sides(alloc: Global, bytes: &[u8], span: (usize, usize)) -> Result<Vec<Side>, AllocError>
    requires { LiesIn bytes.now span }
    ensures { IfOk result (λ sides. sides.items ≡ records (side_at bytes.now) 30 span) }
{
    (0..span.1 / 30)
        .map(|i| records::side(bytes, span.0 + i * 30))
        .collect(alloc)
}

#[tactic(auto, unfolding(crate::specs::Spelled::records))]
pub fn vertices(
    alloc: Global,
    bytes: &[u8],
    span: (usize, usize),
) -> Result<Vec<Vertex>, AllocError>
    requires { LiesIn bytes.now span }
    ensures { IfOk result (λ vertices. vertices.items ≡ records (vertex_at bytes.now) 4 span) }
{
    (0..span.1 / 4)
        .map(|i| records::vertex(bytes, span.0 + i * 4))
        .collect(alloc)
}

#[tactic(auto, unfolding(crate::specs::Spelled::records))]
pub fn lines(
    alloc: Global,
    bytes: &[u8],
    vertices: &[Vertex],
    sides: &[Side],
    span: (usize, usize),
) -> Result<Vec<Line>, AllocError>
    requires { LiesIn bytes.now span }
    ensures { IfOk result (λ lines.
        lines.items ≡ records (line_at bytes.now vertices.now sides.now) 14 span) }
{
    (0..span.1 / 14)
        .map(|i| records::line(bytes, vertices, sides, span.0 + i * 14))
        .collect(alloc)
}

#[tactic(auto, unfolding(crate::specs::Spelled::records))]
pub fn segs(alloc: Global, bytes: &[u8], span: (usize, usize)) -> Result<Vec<Seg>, AllocError>
    requires { LiesIn bytes.now span }
    ensures { IfOk result (λ segs. segs.items ≡ records (seg_at bytes.now) 12 span) }
{
    (0..span.1 / 12)
        .map(|i| records::seg(bytes, span.0 + i * 12))
        .collect(alloc)
}

#[tactic(auto, unfolding(crate::specs::Spelled::records))]
pub fn subsectors(
    alloc: Global,
    bytes: &[u8],
    lines: &[Line],
    sides: &[Side],
    segs: &[Seg],
    span: (usize, usize),
) -> Result<Vec<Subsector>, AllocError>
    requires { LiesIn bytes.now span }
    ensures { IfOk result (λ subsectors.
        subsectors.items ≡ records (subsector_at bytes.now lines.now sides.now segs.now) 4 span) }
{
    (0..span.1 / 4)
        .map(|i| records::subsector(bytes, lines, sides, segs, span.0 + i * 4))
        .collect(alloc)
}

#[tactic(auto, unfolding(crate::specs::Spelled::records))]
pub fn nodes(alloc: Global, bytes: &[u8], span: (usize, usize)) -> Result<Vec<Node>, AllocError>
    requires { LiesIn bytes.now span }
    ensures { IfOk result (λ nodes. nodes.items ≡ records (node_at bytes.now) 28 span) }
{
    (0..span.1 / 28)
        .map(|i| records::node(bytes, span.0 + i * 28))
        .collect(alloc)
}

#[tactic(auto, unfolding(crate::specs::Spelled::records))]
pub fn sectors(alloc: Global, bytes: &[u8], span: (usize, usize)) -> Result<Vec<Ground>, AllocError>
    requires { LiesIn bytes.now span }
    ensures { IfOk result (λ sectors. sectors.items ≡ records (ground_at bytes.now) 26 span) }
{
    (0..span.1 / 26)
        .map(|i| records::sector(bytes, span.0 + i * 26))
        .collect(alloc)
}

#[tactic(auto, unfolding(crate::specs::Spelled::records))]
pub fn words(alloc: Global, bytes: &[u8], span: (usize, usize)) -> Result<Vec<u16>, AllocError>
    requires { LiesIn bytes.now span }
    ensures { IfOk result (λ words. words.items ≡ records (word_at bytes.now) 2 span) }
{
    (0..span.1 / 2)
        .map(|i| records::word(bytes, span.0 + i * 2))
        .collect(alloc)
}
