//! Of a sector: its lines, its neighbours, the blocks round it.
ghost use Rattle.std.specs.Prelude.{◌≡◌, ◌+◌, ◌<◌, ◌≤◌, [], ◌∷◌, length, All, IfSome, IsNone, Option, option_map};
ghost use Rattle.std.specs.Option.{option_map_or};
ghost use Rattle.std.specs.Ordering.{int_eq};
ghost use Rattle.map_geometry.specs.Lists.{nth_line, nth_sector};
ghost use Rattle.map_geometry.specs.Blocks.{blocks_from, cut_to_grid, widened, no_blocks};
ghost use Rattle.map_geometry.specs.Sectors.{has_flag, neighbour_across, lines_of, sectors_with_tag, with_tag_from, holding, block_box_of, block_box_by};

use crate::blocks::{BlockBox, blocks_from, cut_to_grid, widened};
use crate::level::Level;
use crate::records::{Area, Line};

/// Where a sector's lines stand among the joined lines of all sectors, and the blocks round it.
#[derive(Clone, Copy, Debug, PartialEq, Eq)]
pub struct Outline {
    pub first: usize,
    pub count: usize,
    pub blocks: BlockBox,
}

/// The flag of a line that has two sides.
const TWO_SIDED: u16 = 4;

/// No blocks.
const NO_BLOCKS: BlockBox = BlockBox {
    left: 0,
    right: -1,
    bottom: 0,
    top: -1,
};

impl Line {
    /// Whether the line has a flag.
    #[inline]
    pub fn has_flag(&self, flag: u16) -> bool
        ensures { result ≡ has_flag self.now flag }
    {
        self.flags.cast_unsigned() & flag != 0
    }
}

/// What lies across a line from a sector.
#[inline]
fn across(line: &Line, sector: u32) -> Option<u32>
    ensures { result ≡ neighbour_across sector line.now }
{
    if !line.has_flag(TWO_SIDED) {
        return None;
    }
    if line.front == sector {
        line.back
    } else {
        Some(line.front)
    }
}

/// The least rectangle that holds what was held, if anything was, and one area more.
pub fn holding(held: &Option<Area>, area: &Area) -> Area
    ensures { result ≡ holding held.now area.now }
{
    match held {
        None => *area,
        Some(held) => Area {
            top: held.top.max(area.top),
            bottom: held.bottom.min(area.bottom),
            left: held.left.min(area.left),
            right: held.right.max(area.right),
        },
    }
}

/// The blocks round a sector whose lines' rectangle this is, in a grid with this corner and size.
pub fn block_box(
    area: &Option<Area>,
    origin_x: i32,
    origin_y: i32,
    width: u32,
    height: u32,
) -> BlockBox
    ensures { result ≡ block_box_by origin_x origin_y width height area.now }
{
    match area {
        Some(area) => {
            let touched = blocks_from(origin_x, origin_y, &widened(area));
            cut_to_grid(&touched, width, height)
        }
        None => NO_BLOCKS,
    }
}

impl Level {
    /// The lines of a sector, those with it in front or behind: in the order of lines, each once.
    pub fn sector_lines(&self, i: usize) -> &[u32]
        requires { i < length self.now.sectors }
        ensures lines { result.now ≡ lines_of self.now i }
        ensures there { All (λ line. line < length self.now.lines) result.now }
    {
        let outline = self.parts.outlines[i];
        &self.parts.sector_lines[outline.first..outline.first + outline.count]
    }

    /// The blocks round a sector: those that its lines' rectangle touches with 32 map units more on each side, without
    /// those outside the grid. A sector without lines has none.
    pub fn sector_blocks(&self, i: usize) -> BlockBox
        requires { i < length self.now.sectors }
        ensures { result ≡ block_box_of self.now i }
    {
        self.parts.outlines[i].blocks
    }

    /// What lies across a line from a sector: nothing where the line has not the flag of two sides, the sector behind it,
    /// if there is one, where this one is in front, and else the one in front. It may be the same sector.
    pub fn neighbour_across(&self, line: usize, sector: u32) -> Option<u32>
        requires { line < length self.now.lines }
        ensures value { result ≡ neighbour_across sector (nth_line self.now line) }
        ensures there { IfSome result (λ other. other < length self.now.sectors) }
    {
        across(&self.line(line), sector)
    }

    /// Whether a sector has a tag.
    pub fn has_tag(&self, sector: usize, tag: i16) -> bool
        requires { sector < length self.now.sectors }
        ensures { result ≡ int_eq (nth_sector self.now sector).tag tag }
    {
        self.sector(sector).tag == tag
    }

    /// The first sector with a tag, of those from a number on: so, from 0 on and then from behind each one that was
    /// found, all sectors with the tag are found in order.
    #[tactic(auto, using(crate::proofs::Tagged::from_tagged, crate::proofs::Tagged::from_other, crate::proofs::Tagged::from_end))]
    pub fn next_with_tag(&self, from: usize, tag: i16) -> Option<usize>
        requires { from ≤ length self.now.sectors }
        ensures found { IfSome result (λ sector. with_tag_from self.now tag from ≡ sector ∷ with_tag_from self.now tag (sector + 1)) }
        ensures there { IfSome result (λ sector. sector < length self.now.sectors) }
        ensures not_found { IsNone result → with_tag_from self.now tag from ≡ [] }
        ensures all { with_tag_from self.now tag 0 ≡ sectors_with_tag self.now tag }
    {
        for sector in from..self.sector_count() {
            if self.has_tag(sector, tag) {
                return Some(sector);
            }
        }
        None
    }
}
