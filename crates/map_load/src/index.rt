//! Which lines and blocks belong to each sector, in time linear in the lines and sectors.
ghost use Rattle.std.specs.Prelude.{◌≡◌, ◌<◌, length, IfOk, OnOk, All};
ghost use Rattle.map_geometry.specs.Level.{lists_of};
ghost use Rattle.map_geometry.specs.Sectors.{IsIndex, area_of, block_box_by};
ghost use Rattle.map_load.specs.Index.{AreEmpty, Gains, GainsLine, HaveLines};

use map_geometry::{Area, LevelParts, Line, Outline, block_box, holding};
use std::alloc::{AllocError, Global};

/// The numbers of a sector's lines.
#[derive(Drop)]
pub struct SectorLines {
    pub(crate) lines: Vec<u32>,
}

/// So many sectors without lines.
fn no_lines(alloc: Global, count: usize) -> Result<Vec<SectorLines>, AllocError>
    ensures { IfOk result (λ sectors. AreEmpty count sectors.items) }
{
    let mut sectors = Vec::new(alloc);
    for _sector in 0..count {
        let lines = Vec::new(alloc);
        sectors.push(SectorLines { lines })?;
    }
    Ok(sectors)
}

/// Adds a line to those of a sector, where there is such a sector.
fn add(sectors: &mut Vec<SectorLines>, sector: u32, line: u32) -> Result<(), AllocError>
    ensures { OnOk result (Gains sectors.old.items sectors.new.items sector line) }
{
    if let Some(of) = sectors.get_mut(sector as usize) {
        of.lines.push(line)?;
    }
    Ok(())
}

/// Adds a line to those of the sectors in front and behind.
fn add_line(sectors: &mut Vec<SectorLines>, line: &Line, number: u32) -> Result<(), AllocError>
    ensures { OnOk result (GainsLine sectors.old.items sectors.new.items line.now number) }
{
    add(sectors, line.front, number)?;
    match line.back {
        None => Ok(()),
        Some(back) => {
            if back == line.front {
                return Ok(());
            }
            add(sectors, back, number)
        }
    }
}

/// The lines of each sector. A level has no line whose number is above 2^32 - 1: where there are more, it is as if
/// memory ran out.
fn gather(alloc: Global, parts: &LevelParts) -> Result<Vec<SectorLines>, AllocError>
    ensures { IfOk result (λ sectors.
        HaveLines (lists_of parts.now) (length (lists_of parts.now).lines) sectors.items) }
{
    let mut sectors = no_lines(alloc, parts.sectors.len())?;
    for i in 0..parts.lines.len() {
        let Ok(number) = u32::try_from(i) else {
            return Err(AllocError);
        };
        add_line(&mut sectors, &parts.lines[i], number)?;
    }
    Ok(sectors)
}

/// The least rectangle that holds some lines.
fn area_round(parts: &LevelParts, lines: &[u32]) -> Option<Area>
    requires { All (λ line. line < length (lists_of parts.now).lines) lines.now }
    ensures { result ≡ area_of (lists_of parts.now) lines.now }
{
    let mut area = None;
    for line in lines {
        area = Some(holding(&area, &parts.lines[*line as usize].area));
    }
    area
}

/// The outline of a sector with these lines, which stand from this place on.
fn outline(parts: &LevelParts, lines: &[u32], first: usize) -> Outline
    requires { All (λ line. line < length (lists_of parts.now).lines) lines.now }
    ensures first { result.first ≡ first }
    ensures count { result.count ≡ length lines.now }
    ensures blocks { result.blocks ≡ block_box_by parts.now.origin_x parts.now.origin_y
        parts.now.width parts.now.height (area_of (lists_of parts.now) lines.now) }
{
    let area = area_round(parts, lines);
    let blocks = block_box(
        &area,
        parts.origin_x,
        parts.origin_y,
        parts.width,
        parts.height,
    );
    Outline {
        first,
        count: lines.len(),
        blocks,
    }
}

/// The lines of all sectors, one sector after the other, and the outline of each.
fn join(
    alloc: Global,
    parts: &LevelParts,
    sectors: &[SectorLines],
) -> Result<(Vec<u32>, Vec<Outline>), AllocError>
    requires { HaveLines (lists_of parts.now) (length (lists_of parts.now).lines) sectors.now }
    ensures { IfOk result (λ index. IsIndex (lists_of parts.now) index.0.items index.1.items) }
{
    let mut joined = Vec::new(alloc);
    let mut outlines = Vec::new(alloc);
    for sector in sectors {
        let outline = outline(parts, &sector.lines, joined.len());
        outlines.push(outline)?;
        joined.extend_from_slice(&sector.lines)?;
    }
    Ok((joined, outlines))
}

/// The parts with the lines and the outline of each sector.
pub fn indexed(alloc: Global, mut parts: LevelParts) -> Result<LevelParts, AllocError>
    ensures lists { IfOk result (λ done. lists_of done ≡ lists_of parts) }
    ensures index { IfOk result (λ done.
        IsIndex (lists_of done) done.sector_lines.items done.outlines.items) }
{
    let sectors = gather(alloc, &parts)?;
    let (sector_lines, outlines) = join(alloc, &parts, &sectors)?;
    parts.sector_lines = sector_lines;
    parts.outlines = outlines;
    Ok(parts)
}
