//! The calls that are made, each at places all over the level.

use block_walk::{TraceFault, lines_in, subsector_at, trace};
use map_geometry::{Area, Level, line_side};
use std::alloc::Global;
use std::fmt;

const UNIT: i32 = 65536;

/// The player's radius, and how far a use reaches.
const RADIUS: i32 = 16 * UNIT;

const REACH: i32 = 64 * UNIT;

#[derive(Clone, Copy)]
pub enum Call {
    LineSide,
    SubsectorAt,
    LinesIn,
    Trace,
}

impl fmt::Display for Call {
    fn fmt<W: fmt::Write>(&self, f: &mut fmt::Formatter<W>) -> fmt::Result {
        match self {
            Call::LineSide => write!(f, "line_side"),
            Call::SubsectorAt => write!(f, "subsector_at"),
            Call::LinesIn => write!(f, "lines_in"),
            Call::Trace => write!(f, "trace"),
        }
    }
}

/// Numbers and places that look random, the same in each run.
#[derive(Drop)]
struct Places {
    seed: u32,
    left: i32,
    bottom: i32,
    width: u32,
    height: u32,
}

impl Places {
    fn new(level: &Level) -> Self {
        Places {
            seed: 1,
            left: level.origin_x(),
            bottom: level.origin_y(),
            width: level.width(),
            height: level.height(),
        }
    }

    /// A number below 2^16.
    fn number(&mut self) -> u32 {
        self.seed = self
            .seed
            .wrapping_mul(1_664_525)
            .wrapping_add(1_013_904_223);
        self.seed / 65536
    }

    /// A length below that of so many blocks.
    fn length(&mut self, blocks: u32) -> i32 {
        blocks
            .wrapping_mul(128)
            .wrapping_mul(self.number())
            .cast_signed()
    }

    fn x(&mut self) -> i32 {
        self.left.wrapping_add(self.length(self.width))
    }

    fn y(&mut self) -> i32 {
        self.bottom.wrapping_add(self.length(self.height))
    }
}

fn line_sides(level: &Level, count: u32) -> u64 {
    let lines = level.line_count();
    let mut places = Places::new(level);
    let mut sum = 0u64;
    if lines == 0 {
        return sum;
    }
    for _ in 0..count {
        let line = level.line(places.number() as usize % lines);
        let side = line_side(&line, places.x(), places.y());
        sum = sum.wrapping_add(u64::from(side));
    }
    sum
}

fn subsectors(level: &Level, count: u32) -> u64 {
    let mut places = Places::new(level);
    let mut sum = 0u64;
    for _ in 0..count {
        let subsector = subsector_at(level, places.x(), places.y());
        sum = sum.wrapping_add(u64::from(subsector));
    }
    sum
}

fn boxes(alloc: Global, level: &Level, count: u32) -> Result<u64, TraceFault> {
    let mut places = Places::new(level);
    let mut lines = Vec::new(alloc);
    let mut sum = 0u64;
    for _ in 0..count {
        let (x, y) = (places.x(), places.y());
        let area = Area {
            top: y.wrapping_add(RADIUS),
            bottom: y.wrapping_sub(RADIUS),
            left: x.wrapping_sub(RADIUS),
            right: x.wrapping_add(RADIUS),
        };
        lines_in(level, &area, &mut lines).map_err(|_| TraceFault::Memory)?;
        sum = sum.wrapping_add(lines.len() as u64);
    }
    Ok(sum)
}

fn traces(alloc: Global, level: &Level, count: u32) -> Result<u64, TraceFault> {
    let mut places = Places::new(level);
    let mut pairs = Vec::new(alloc);
    let mut sum = 0u64;
    for _ in 0..count {
        let (x, y) = (places.x(), places.y());
        let end = x.wrapping_add(REACH);
        trace(level, x, y, end, y.wrapping_add(REACH / 2), &mut pairs)?;
        sum = sum.wrapping_add(pairs.len() as u64);
    }
    Ok(sum)
}

impl Call {
    pub const ALL: [Call; 4] = [
        Call::LineSide,
        Call::SubsectorAt,
        Call::LinesIn,
        Call::Trace,
    ];

    /// What so many calls answer, added up: sides, subsectors, counts of lines.
    pub fn sum(self, alloc: Global, level: &Level, count: u32) -> anyhow::Result<u64> {
        match self {
            Call::LineSide => Ok(line_sides(level, count)),
            Call::SubsectorAt => Ok(subsectors(level, count)),
            Call::LinesIn => boxes(alloc, level, count).map_err(|fault| anyhow::anyhow!(
                "{fault:?}"
            )),
            Call::Trace => traces(alloc, level, count).map_err(|fault| anyhow::anyhow!(
                "{fault:?}"
            )),
        }
    }
}
