//! Of sectors in a row their lines, neighbours, blocks and tags, worked out apart from the program.

use crate::maps::level;
use crate::rows::{behind, expect, int, numbers, word};
use block_walk::sector_of_place;
use map_geometry::Level;
use sample_inputs::three_sectors;
use std::alloc::{AllocError, Global};
use std::process::Abort;
use std::test::Fail;

/// One map unit in fixed point.
const U: i32 = 65536;

fn lines_beside(level: &Level, sector: u32) -> &[u32] {
    if sector as usize >= level.sector_count() {
        return &[];
    }
    level.sector_lines(sector as usize)
}

/// What lies across a line of a sector.
fn across(level: &Level, line: u32, sector: u32) -> Option<u32> {
    let line = line as usize;
    if line >= level.line_count() {
        return None;
    }
    level.neighbour_across(line, sector)
}

/// The lines of a sector, -1, and what lies across them, in their order.
fn around(alloc: Global, level: &Level, sector: u32) -> Result<Vec<i64>, AllocError> {
    let mut found = Vec::new(alloc);
    for line in lines_beside(level, sector) {
        found.push(i64::from(*line))?;
    }
    found.push(-1)?;
    for line in lines_beside(level, sector) {
        if let Some(other) = across(level, *line, sector) {
            found.push(i64::from(other))?;
        }
    }
    Ok(found)
}

/// A sector, its lines, -1, and what lies across them.
const AROUND: &str = "\
0 0 1 9 10 11 -1 1 1
1 0 2 3 4 7 8 11 -1 0 2 1 0
2 2 5 6 8 -1 1
3 -1";

fn expect_around(rt: &impl Abort, alloc: Global, level: &Level) -> Result<(), Fail> {
    for line in AROUND.lines() {
        let row = numbers(alloc, line)?;
        let found = around(alloc, level, word(&row, 0))?;
        expect(rt, line, &found, behind(&row, 1));
    }
    Ok(())
}

/// The blocks round a sector: left, right, bottom, top.
fn blocks_round(level: &Level, sector: u32) -> [i64; 4] {
    if sector as usize >= level.sector_count() {
        return [0; 4];
    }
    let blocks = level.sector_blocks(sector as usize);
    [
        i64::from(blocks.left),
        i64::from(blocks.right),
        i64::from(blocks.bottom),
        i64::from(blocks.top),
    ]
}

/// A sector, and the blocks round it. The east wall is right of the grid by more than 32 units, and the others within
/// 32 units of its sides.
const BLOCKS: &str = "\
0 0 3 0 8
1 2 6 0 8
2 3 8 0 8
3 0 -1 0 -1";

fn expect_blocks(rt: &impl Abort, alloc: Global, level: &Level) -> Result<(), Fail> {
    for line in BLOCKS.lines() {
        let row = numbers(alloc, line)?;
        expect(
            rt,
            line,
            &blocks_round(level, word(&row, 0)),
            behind(&row, 1),
        );
    }
    Ok(())
}

/// The sectors with a tag, as bits.
fn tagged(level: &Level, tag: i16) -> u8 {
    let mut bits = 0;
    for sector in 0..level.sector_count() {
        if level.has_tag(sector, tag) && sector < 8 {
            bits |= 1 << sector;
        }
    }
    bits
}

/// A place's x in units, and its sector.
const PLACES: &str = "\
-200 0
-128 0
-127 1
256 1
257 2";

fn expect_places(rt: &impl Abort, alloc: Global, level: &Level) -> Result<(), Fail> {
    for line in PLACES.lines() {
        let row = numbers(alloc, line)?;
        let sector = sector_of_place(level, int(&row, 0).wrapping_mul(U), 0);
        expect(rt, line, &[i64::from(sector)], behind(&row, 1));
    }
    Ok(())
}

#[test]
fn three_in_a_row(rt: HostRuntime) -> Result<(), Fail> {
    let alloc = rt.alloc();
    let level = level(alloc, &three_sectors(alloc)?)?;
    expect_around(&rt, alloc, &level)?;
    expect_blocks(&rt, alloc, &level)?;
    expect_places(&rt, alloc, &level)?;
    assert_eq!(rt; level.sector_count(), 4);
    let tags = [tagged(&level, 7), tagged(&level, 0), tagged(&level, -1)];
    assert_eq!(rt; tags, [0b0101, 0b1010, 0]);
    Ok(())
}
