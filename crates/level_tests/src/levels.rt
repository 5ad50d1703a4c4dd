//! Small maps, made by hand: each lump is a list of words.

use crate::maps::push_words;
use crate::rows::{at, behind, expect, numbers, word};
use map_geometry::{Area, Level, LevelFault, Line, Slope, Spot};
use map_load::load;
use std::alloc::{AllocError, Global};
use std::process::Abort;
use std::test::Fail;
use wad_lumps::Wad;

/// The words of the ten lumps, a line each, of a square room of one sector, 64 units wide, whose lines face its inside.
const ROOM: &str = "\
32 16 90 1 7
0 1 1 0 0 0 65535 1 2 1 0 0 1 65535 2 3 1 0 0 2 65535 3 0 1 0 0 3 65535
0 0 0 0 0 0 0 0 0 0 0 0 0 0 0 0 0 0 0 0 0 0 0 0 0 0 0 0 0 0 0 0 0 0 0 0 0 0 0 0 0 0 0 0 0 0 0 0 0 0 0 0 0 0 0 0 0 0 0 0
0 0 0 64 64 64 64 0
0 1 0 0 0 0
1 0

0 128 0 0 0 0 0 0 0 0 0 0 0

0 65528 1 1 5 0 0 1 2 3 65535";

/// Lumps as lists of their words.
type Lumps = Vec<Vec<i64>>;

fn room(alloc: Global) -> Result<Lumps, AllocError> {
    let mut lumps = Vec::new(alloc);
    for line in ROOM.lines() {
        lumps.push(numbers(alloc, line)?)?;
    }
    Ok(lumps)
}

/// Puts a word of lump `lump`, from 1 to 10, in the place of another.
fn put(lumps: &mut Lumps, lump: usize, at: usize, word: i64) {
    if let Some(words) = lumps.get_mut(lump.wrapping_sub(1)) {
        if let Some(place) = words.get_mut(at) {
            *place = word;
        }
    }
}

/// The entries of lumps that stand from byte 188 on, in their order.
fn push_entries(bytes: &mut Vec<u8>, lumps: &Lumps) -> Result<(), AllocError> {
    let mut place = 188u32;
    for words in lumps {
        let size = u32::try_from(words.len())
            .unwrap_or(u32::MAX)
            .wrapping_mul(2);
        bytes.extend_from_slice(&place.to_le_bytes())?;
        bytes.extend_from_slice(&size.to_le_bytes())?;
        bytes.extend_from_slice(&[0; 8])?;
        place = place.wrapping_add(size);
    }
    Ok(())
}

/// The file of a map: its directory, the label first, and then the lumps.
fn file(alloc: Global, lumps: &Lumps) -> Result<Vec<u8>, AllocError> {
    let mut bytes = Vec::from_slice(alloc, b"PWAD\x0b\0\0\0\x0c\0\0\0")?;
    bytes.extend_from_slice(b"\0\0\0\0\0\0\0\0E1M1\0\0\0\0")?;
    push_entries(&mut bytes, lumps)?;
    for words in lumps {
        push_words(&mut bytes, words)?;
    }
    Ok(bytes)
}

/// What loading the map gives, by itself or with a lump that tells another form.
fn loaded(
    alloc: Global,
    lumps: &Lumps,
    other_form: bool,
) -> Result<Result<Level, LevelFault>, Fail> {
    let wad = Wad::read(file(alloc, lumps)?)?;
    let mut spans = wad.map(alloc, 1, 1)?;
    spans.other_form = other_form;
    Ok(load(alloc, &wad, &spans))
}

/// How many things, lines, sectors, subsectors and cells there are.
fn counts(level: &Level) -> [usize; 5] {
    [
        level.thing_count(),
        level.line_count(),
        level.sector_count(),
        level.subsector_count(),
        level.cell_count(),
    ]
}

/// The room's thing and its second wall.
fn thing_and_wall(level: &Level) -> Option<(Spot, Line)> {
    if level.thing_count() < 1 {
        return None;
    }
    if level.line_count() < 2 {
        return None;
    }
    Some((level.thing(0), level.line(1)))
}

/// The room's ceiling, and the sector of its subsector.
fn ceiling_and_sector(level: &Level) -> Option<(i32, u32)> {
    if level.sector_count() < 1 {
        return None;
    }
    if level.subsector_count() < 1 {
        return None;
    }
    Some((level.sector(0).ceiling, level.subsector(0).sector))
}

/// The width and the height of the grid, its origin, and the place of its first block's list.
fn grid(level: &Level) -> [i64; 5] {
    let list = if level.cell_count() < 1 {
        0
    } else {
        i64::from(level.cell(0))
    };
    [
        i64::from(level.width()),
        i64::from(level.height()),
        i64::from(level.origin_x()),
        i64::from(level.origin_y()),
        list,
    ]
}

const THING: Spot = Spot {
    x: 32 << 16,
    y: 16 << 16,
    angle: 90,
    number: 1,
    options: 7,
};

const WALL: Line = Line {
    v1: 1,
    v2: 2,
    front_side: 1,
    back_side: None,
    flags: 1,
    special: 0,
    tag: 0,
    x: 0,
    y: 64 << 16,
    dx: 64 << 16,
    dy: 0,
    area: Area {
        top: 64 << 16,
        bottom: 64 << 16,
        left: 0,
        right: 64 << 16,
    },
    slope: Slope::Horizontal,
    front: 0,
    back: None,
};

fn expect_room(rt: &impl Abort, level: &Level) {
    assert_eq!(rt; counts(level), [1, 4, 1, 1, 1]);
    assert_eq!(rt; thing_and_wall(level), Some((THING, WALL)));
    assert_eq!(rt; ceiling_and_sector(level), Some((128 << 16, 0)));
    expect(rt, "the grid", &grid(level), &[1, 1, 0, -8 << 16, 5]);
    assert!(rt; level.episode_form());
}

#[test]
fn a_room(rt: HostRuntime) -> Result<(), Fail> {
    let level = loaded(rt.alloc(), &room(rt.alloc())?, false)??;
    expect_room(&rt, &level);
    Ok(())
}

/// A node with these children.
fn push_node(nodes: &mut Vec<i64>, child_0: i64, child_1: i64) -> Result<(), AllocError> {
    nodes.extend_from_slice(&[0; 12])?;
    nodes.push(child_0)?;
    nodes.push(child_1)?;
    Ok(())
}

/// So many nodes, each above the one before it. The children of the first are as given.
fn chain(alloc: Global, count: u32, below: i64) -> Result<Vec<i64>, AllocError> {
    let mut nodes = Vec::new(alloc);
    for number in 0..count {
        let child = match number {
            0 => below,
            _ => i64::from(number.wrapping_sub(1).min(0x7FFF)),
        };
        push_node(&mut nodes, child, child)?;
    }
    Ok(nodes)
}

/// A room with a chain of nodes, and with the words put that stand in a row: lump, place and word, again and again.
fn changed(alloc: Global, count: u32, below: i64, puts: &[i64]) -> Result<Lumps, AllocError> {
    let mut lumps = room(alloc)?;
    if let Some(nodes) = lumps.get_mut(6) {
        *nodes = chain(alloc, count, below)?;
    }
    for triple in puts.chunks(3) {
        put(
            &mut lumps,
            word(triple, 0) as usize,
            word(triple, 1) as usize,
            at(triple, 2),
        );
    }
    Ok(lumps)
}

/// The fault of a row: 0 is none, 1 a reference from a record of a lump, 2 the block map, 3 nodes that go round, and 4
/// nodes of another kind.
fn fault_of(row: &[i64]) -> Option<LevelFault> {
    match at(row, 0) {
        0 => None,
        1 => Some(LevelFault::LevelRef(word(row, 1), word(row, 2) as usize)),
        2 => Some(LevelFault::BlockShape),
        3 => Some(LevelFault::NodeLoop),
        _ => Some(LevelFault::NodesKind),
    }
}

/// Of each row the fault, its lump and its record; the number of nodes, and what stands below the first; and what is
/// put: the lump, the place and the word. Of two faults the front side's sector is told before the back side's, and
/// lines before all else. The last node does not always reach the loop of the first one.
const FAULTS: &str = "\
1 2 0 0 0 2 0 4
1 2 1 0 0 2 8 4
1 2 3 0 0 2 26 4
1 2 3 0 0 2 26 65535
1 2 3 0 0 2 27 4
0 0 0 0 0 2 27 2
1 3 2 0 0 3 44 1
1 6 0 0 0 6 0 0
1 6 0 0 0 6 1 1
1 5 0 0 0 5 3 4
1 5 0 0 0 5 4 1
1 5 0 0 0 5 4 2
2 0 0 0 0 10 2 0
2 0 0 0 0 10 2 65535
2 0 0 0 0 10 3 0
2 0 0 0 0 10 3 8
0 0 0 0 0 10 4 10
2 0 0 0 0 10 4 11
2 0 0 0 0 10 10 0
1 10 0 0 0 10 5 4
1 10 0 0 0 10 9 4
1 3 3 0 0 2 6 3 3 59 1
1 3 0 0 0 2 6 3 3 59 1 3 14 1
1 3 0 0 0 2 6 3 3 59 1 3 14 1 10 3 0 6 0 0
0 0 0 1 32768
3 0 0 1 0
1 7 0 1 1
1 7 0 1 32769
0 0 0 60 32768
3 0 0 60 30
1 7 0 60 60
0 0 0 2 0 7 13 32768 7 26 32768 7 27 32768
0 0 0 65536 32768
3 0 0 65536 32767
4 0 0 1 32768 7 0 20088 7 1 13412
4 0 0 1 32768 7 0 20056 7 1 17487
4 0 0 1 32768 7 0 20058 7 1 17487";

#[test]
fn faults(rt: HostRuntime) -> Result<(), Fail> {
    for line in FAULTS.lines() {
        let row = numbers(rt.alloc(), line)?;
        let lumps = changed(rt.alloc(), word(&row, 3), at(&row, 4), behind(&row, 5))?;
        let found = loaded(rt.alloc(), &lumps, false)?.err();
        assert_eq!(rt; found, fault_of(&row), "{line}");
    }
    Ok(())
}

#[test]
fn another_form(rt: HostRuntime) -> Result<(), Fail> {
    let found = loaded(rt.alloc(), &room(rt.alloc())?, true)?.err();
    assert_eq!(rt; found, Some(LevelFault::MapForm));
    Ok(())
}
