//! The WAD of a map.

use crate::maps::{MapPlan, PlanLine, PlanNode, PlanSector, PlanThing};
use std::alloc::{AllocError, Global};

/// No side, and the end of a block's list.
const NONE: u16 = 0xFFFF;

/// The label's own entry begins here, and so does the first lump.
const FIRST_LUMP: u32 = 12;

/// A count or a length as a word of the file; those of the maps here are small.
fn word(count: usize) -> u16 {
    u16::try_from(count).unwrap_or(u16::MAX)
}

/// The map as a WAD of its own: the label, the ten lumps in their order from byte 12, the directory last.
pub fn wad(alloc: Global, plan: &MapPlan) -> Result<Vec<u8>, AllocError> {
    let mut writer = WadWriter::new(alloc);
    writer.add(&plan.label, &[])?;
    writer.add(b"THINGS\0\0", &things(alloc, &plan.things)?)?;
    writer.add(b"LINEDEFS", &linedefs(alloc, &plan.lines)?)?;
    writer.add(b"SIDEDEFS", &sidedefs(alloc, &plan.lines)?)?;
    writer.add(b"VERTEXES", &vertexes(alloc, &plan.lines)?)?;
    writer.add(b"SEGS\0\0\0\0", &segs(alloc, &plan.segs)?)?;
    writer.add(b"SSECTORS", &subsectors(alloc, plan.segs.len())?)?;
    writer.add(b"NODES\0\0\0", &nodes(alloc, &plan.nodes)?)?;
    writer.add(b"SECTORS\0", &sectors(alloc, &plan.sectors)?)?;
    writer.add(b"REJECT\0\0", &[])?;
    writer.add(b"BLOCKMAP", &blockmap(alloc, plan.lines.len())?)?;
    writer.finish(alloc)
}

/// Lumps and directory as they grow.
#[derive(Drop)]
struct WadWriter {
    lumps: Vec<u8>,
    directory: Vec<u8>,
    entries: u32,
}

impl WadWriter {
    fn new(alloc: Global) -> Self {
        WadWriter {
            lumps: Vec::new(alloc),
            directory: Vec::new(alloc),
            entries: 0,
        }
    }

    /// Where the next lump begins.
    fn offset(&self) -> u32 {
        u32::try_from(self.lumps.len())
            .unwrap_or(u32::MAX)
            .wrapping_add(FIRST_LUMP)
    }

    fn add(&mut self, name: &[u8; 8], lump: &[u8]) -> Result<(), AllocError> {
        let size = u32::try_from(lump.len()).unwrap_or(u32::MAX);
        let offset = self.offset();
        self.directory.extend_from_slice(&offset.to_le_bytes())?;
        self.directory.extend_from_slice(&size.to_le_bytes())?;
        self.directory.extend_from_slice(name)?;
        self.lumps.extend_from_slice(lump)?;
        self.entries = self.entries.wrapping_add(1);
        Ok(())
    }

    fn finish(self, alloc: Global) -> Result<Vec<u8>, AllocError> {
        let mut bytes = b"PWAD".to_vec(alloc)?;
        bytes.extend_from_slice(&self.entries.to_le_bytes())?;
        bytes.extend_from_slice(&self.offset().to_le_bytes())?;
        bytes.extend_from_slice(&self.lumps)?;
        bytes.extend_from_slice(&self.directory)?;
        Ok(bytes)
    }
}

fn things(alloc: Global, things: &[PlanThing]) -> Result<Vec<u8>, AllocError> {
    let mut lump = Vec::new(alloc);
    for thing in things {
        lump.extend_from_slice(&thing.x.to_le_bytes())?;
        lump.extend_from_slice(&thing.y.to_le_bytes())?;
        lump.extend_from_slice(&thing.angle.to_le_bytes())?;
        lump.extend_from_slice(&thing.number.to_le_bytes())?;
        lump.extend_from_slice(&thing.options.to_le_bytes())?;
    }
    Ok(lump)
}

/// Line l has the vertices 2l and 2l + 1; sides are numbered in order of lines, front first.
fn linedefs(alloc: Global, lines: &[PlanLine]) -> Result<Vec<u8>, AllocError> {
    let mut lump = Vec::new(alloc);
    let mut vertex = 0u16;
    let mut side = 0u16;
    for line in lines {
        let back_side = if line.back.is_some() {
            side.wrapping_add(1)
        } else {
            NONE
        };
        for field in [vertex, vertex.wrapping_add(1)] {
            lump.extend_from_slice(&field.to_le_bytes())?;
        }
        lump.extend_from_slice(&line.flags.to_le_bytes())?;
        lump.extend_from_slice(&line.special.to_le_bytes())?;
        lump.extend_from_slice(&line.tag.to_le_bytes())?;
        for field in [side, back_side] {
            lump.extend_from_slice(&field.to_le_bytes())?;
        }
        vertex = vertex.wrapping_add(2);
        side = side.wrapping_add(if line.back.is_some() { 2 } else { 1 });
    }
    Ok(lump)
}

fn sidedefs(alloc: Global, lines: &[PlanLine]) -> Result<Vec<u8>, AllocError> {
    let mut lump = Vec::new(alloc);
    for line in lines {
        push_side(&mut lump, line.front)?;
        if let Some(back) = line.back {
            push_side(&mut lump, back)?;
        }
    }
    Ok(lump)
}

/// Offsets and texture names are zeros.
fn push_side(lump: &mut Vec<u8>, sector: u16) -> Result<(), AllocError> {
    lump.extend_from_slice(&[0; 28])?;
    lump.extend_from_slice(&sector.to_le_bytes())
}

fn vertexes(alloc: Global, lines: &[PlanLine]) -> Result<Vec<u8>, AllocError> {
    let mut lump = Vec::new(alloc);
    for line in lines {
        for field in [line.from.0, line.from.1, line.to.0, line.to.1] {
            lump.extend_from_slice(&field.to_le_bytes())?;
        }
    }
    Ok(lump)
}

/// Vertices, angle and offset are zeros.
fn segs(alloc: Global, segs: &[(u16, u16)]) -> Result<Vec<u8>, AllocError> {
    let mut lump = Vec::new(alloc);
    for (line, side) in segs {
        for field in [0, 0, 0, *line, *side, 0] {
            lump.extend_from_slice(&field.to_le_bytes())?;
        }
    }
    Ok(lump)
}

/// Subsector i is seg i alone.
fn subsectors(alloc: Global, count: usize) -> Result<Vec<u8>, AllocError> {
    let mut lump = Vec::new(alloc);
    for seg in 0..word(count) {
        for field in [1, seg] {
            lump.extend_from_slice(&field.to_le_bytes())?;
        }
    }
    Ok(lump)
}

/// Boxes are zeros.
fn nodes(alloc: Global, nodes: &[PlanNode]) -> Result<Vec<u8>, AllocError> {
    let mut lump = Vec::new(alloc);
    for node in nodes {
        for field in [node.at.0, node.at.1, node.direction.0, node.direction.1] {
            lump.extend_from_slice(&field.to_le_bytes())?;
        }
        lump.extend_from_slice(&[0; 16])?;
        for child in [node.child_0, node.child_1] {
            lump.extend_from_slice(&child.to_le_bytes())?;
        }
    }
    Ok(lump)
}

/// Texture names are zeros.
fn sectors(alloc: Global, sectors: &[PlanSector]) -> Result<Vec<u8>, AllocError> {
    let mut lump = Vec::new(alloc);
    for sector in sectors {
        lump.extend_from_slice(&sector.floor.to_le_bytes())?;
        lump.extend_from_slice(&sector.ceiling.to_le_bytes())?;
        lump.extend_from_slice(&[0; 16])?;
        lump.extend_from_slice(&sector.light.to_le_bytes())?;
        lump.extend_from_slice(&sector.special.to_le_bytes())?;
        lump.extend_from_slice(&sector.tag.to_le_bytes())?;
    }
    Ok(lump)
}

/// A grid of 9 by 9 blocks from (-512, -512) whose one list, right after the offsets, has all lines.
fn blockmap(alloc: Global, lines: usize) -> Result<Vec<u8>, AllocError> {
    let mut lump = Vec::new(alloc);
    for field in [-512i16, -512, 9, 9] {
        lump.extend_from_slice(&field.to_le_bytes())?;
    }
    for _ in 0..81 {
        lump.extend_from_slice(&85u16.to_le_bytes())?;
    }
    lump.extend_from_slice(&[0; 2])?;
    for line in 0..word(lines) {
        lump.extend_from_slice(&line.to_le_bytes())?;
    }
    lump.extend_from_slice(&NONE.to_le_bytes())?;
    Ok(lump)
}
