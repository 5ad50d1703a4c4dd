//! Small maps by their lines: a single room, two sectors side by side, a room with a row of two-sided lines.

use std::alloc::{AllocError, Global};

/// A thing of a map; the angle is in degrees.
#[derive(Clone, Copy)]
pub struct PlanThing {
    pub number: u16,
    pub x: i16,
    pub y: i16,
    pub angle: i16,
    pub options: i16,
}

/// A line from one point to another, in map units, with the sectors of its sides.
#[derive(Clone, Copy)]
pub struct PlanLine {
    pub from: (i16, i16),
    pub to: (i16, i16),
    pub flags: i16,
    pub special: u16,
    pub tag: i16,
    pub front: u16,
    pub back: Option<u16>,
}

#[derive(Clone, Copy)]
pub struct PlanSector {
    pub floor: i16,
    pub ceiling: i16,
    pub light: i16,
    pub special: u16,
    pub tag: i16,
}

/// A node's line and children; bit 0x8000 of a child marks a subsector.
#[derive(Clone, Copy)]
pub struct PlanNode {
    pub at: (i16, i16),
    pub direction: (i16, i16),
    pub child_0: u16,
    pub child_1: u16,
}

/// A map before it is written: every line has two vertices of its own, every subsector is one seg, and all blocks of
/// the 9 by 9 grid from (-512, -512) share one list of all lines.
#[derive(Drop)]
pub struct MapPlan {
    pub label: [u8; 8],
    pub things: Vec<PlanThing>,
    pub lines: Vec<PlanLine>,
    pub segs: Vec<(u16, u16)>,
    pub nodes: Vec<PlanNode>,
    pub sectors: Vec<PlanSector>,
}

const PLAYER: PlanThing = PlanThing {
    number: 1,
    x: 0,
    y: 0,
    angle: 0,
    options: 7,
};

const WEST: i16 = -512;

const EAST: i16 = 512;

const SOUTH: i16 = -512;

const NORTH: i16 = 512;

const BLOCKING: i16 = 1;

const TWO_SIDED: i16 = 4;

/// A one-sided wall.
fn wall(from: (i16, i16), to: (i16, i16), front: u16) -> PlanLine {
    PlanLine {
        from,
        to,
        flags: BLOCKING,
        special: 0,
        tag: 0,
        front,
        back: None,
    }
}

/// A plain sector of this floor, ceiling and tag.
fn sector((floor, ceiling, tag): (i16, i16, i16)) -> PlanSector {
    PlanSector {
        floor,
        ceiling,
        light: 128,
        special: 0,
        tag,
    }
}

/// One room from (-512, -512) to (512, 512), floor 0, ceiling 128, with the player at its middle, under `E1M1`.
pub fn single_room(alloc: Global) -> Result<MapPlan, AllocError> {
    Ok(MapPlan {
        label: *b"E1M1\0\0\0\0",
        things: vec![in alloc; PLAYER]?,
        lines: room_walls(alloc)?,
        segs: vec![in alloc; (0, 0)]?,
        nodes: Vec::new(alloc),
        sectors: vec![in alloc; sector((0, 128, 0))]?,
    })
}

fn room_walls(alloc: Global) -> Result<Vec<PlanLine>, AllocError> {
    let walls = [
        wall((WEST, SOUTH), (WEST, NORTH), 0),
        wall((WEST, NORTH), (EAST, NORTH), 0),
        wall((EAST, NORTH), (EAST, SOUTH), 0),
        wall((EAST, SOUTH), (WEST, SOUTH), 0),
    ];
    walls.to_vec(alloc)
}

/// Two sectors that meet at x = `middle` in line 0, which has this special and tag and the west sector in front. Each
/// sector is given by its floor, ceiling and tag.
pub fn two_sectors(
    alloc: Global,
    middle: i16,
    west: (i16, i16, i16),
    east: (i16, i16, i16),
    special: u16,
    tag: i16,
) -> Result<MapPlan, AllocError> {
    let node = PlanNode {
        at: (middle, SOUTH),
        direction: (0, 1024),
        child_0: 0x8001,
        child_1: 0x8000,
    };
    Ok(MapPlan {
        label: *b"E1M1\0\0\0\0",
        things: vec![in alloc; PLAYER]?,
        lines: two_sector_lines(alloc, middle, special, tag)?,
        segs: vec![in alloc; (1, 0), (5, 0)]?,
        nodes: vec![in alloc; node]?,
        sectors: vec![in alloc; sector(west), sector(east)]?,
    })
}

fn two_sector_lines(
    alloc: Global,
    middle: i16,
    special: u16,
    tag: i16,
) -> Result<Vec<PlanLine>, AllocError> {
    let border = PlanLine {
        from: (middle, NORTH),
        to: (middle, SOUTH),
        flags: TWO_SIDED,
        special,
        tag,
        front: 0,
        back: Some(1),
    };
    let lines = [
        border,
        wall((WEST, SOUTH), (WEST, NORTH), 0),
        wall((WEST, NORTH), (middle, NORTH), 0),
        wall((middle, SOUTH), (WEST, SOUTH), 0),
        wall((middle, NORTH), (EAST, NORTH), 1),
        wall((EAST, NORTH), (EAST, SOUTH), 1),
        wall((EAST, SOUTH), (middle, SOUTH), 1),
    ];
    lines.to_vec(alloc)
}

/// Three sectors in a row that meet at x = -128 and x = 256, the west and the east one with tag 7, and a sector without
/// lines. Among their lines are two borders between the same sectors, one within a sector, one with two sides and no
/// flag that says so, and one with that flag and no back side.
pub fn three_sectors(alloc: Global) -> Result<MapPlan, AllocError> {
    let mut plan = single_room(alloc)?;
    plan.lines = three_sector_lines(alloc)?;
    plan.segs = vec![in alloc; (1, 0), (4, 0), (5, 0)]?;
    plan.nodes = vec![in alloc;
        PlanNode {
            at: (256, SOUTH),
            direction: (0, 1024),
            child_0: 0x8002,
            child_1: 0x8001
        },
        PlanNode {
            at: (-128, SOUTH),
            direction: (0, 1024),
            child_0: 0,
            child_1: 0x8000
        },
    ]?;
    plan.sectors = vec![in alloc;
        sector((0, 128, 7)),
        sector((24, 104, 0)),
        sector((-8, 160, 7)),
        sector((0, 0, 0)),
    ]?;
    Ok(plan)
}

/// A line with the flag of two sides.
fn border(from: (i16, i16), to: (i16, i16), front: u16, back: Option<u16>) -> PlanLine {
    PlanLine {
        flags: TWO_SIDED,
        back,
        ..wall(from, to, front)
    }
}

fn three_sector_lines(alloc: Global) -> Result<Vec<PlanLine>, AllocError> {
    let lines = [
        border((-128, NORTH), (-128, SOUTH), 0, Some(1)),
        wall((WEST, SOUTH), (WEST, NORTH), 0),
        border((256, SOUTH), (256, NORTH), 2, Some(1)),
        wall((256, SOUTH), (-128, SOUTH), 1),
        wall((-128, NORTH), (256, NORTH), 1),
        wall((256, NORTH), (640, NORTH), 2),
        wall((640, NORTH), (640, SOUTH), 2),
        border((0, 0), (64, 64), 1, Some(1)),
        PlanLine {
            back: Some(2),
            ..wall((0, 100), (0, 164), 1)
        },
        wall((-128, SOUTH), (WEST, SOUTH), 0),
        border((-300, 0), (-300, 64), 0, None),
        border((-128, 0), (-128, -64), 0, Some(1)),
    ];
    lines.to_vec(alloc)
}

/// The single room with a row of `count` further two-sided lines of this special east of the player, one unit apart
/// and sixty to a row, each with sector 0 in front and behind.
pub fn picket_room(alloc: Global, count: u16, special: u16) -> Result<MapPlan, AllocError> {
    let mut plan = single_room(alloc)?;
    for picket in 0..count {
        let x = 2 + (picket % 60) as i16;
        let line = PlanLine {
            from: (x, 64),
            to: (x, -64),
            flags: TWO_SIDED,
            special,
            tag: 0,
            front: 0,
            back: Some(0),
        };
        plan.lines.push(line)?;
    }
    Ok(plan)
}
