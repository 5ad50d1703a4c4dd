//! `level` over files in memory.
use crate::over::{Left, NONE, ran_over};
use sample_inputs::{
    PlanKind, PlanNode, PlanThing, demo, demo_of_zeros, header_at, play_tables, play_tables_of,
    single_room, two_sectors, wad,
};
use std::alloc::{AllocError, Global};
use std::process::Abort;
use std::test::Fail;
use std::thread::Threads;

/// The words of a report of a level.
const LEVEL: [&str; 4] = ["level", "maps.wad", "play.ptab", "in.lmp"];

/// The report of the single room.
const ROOM_REPORT: &[u8] =
    b"level E1M1\nthings 1 lines 4 sides 4 vertices 8 segs 1 subsectors 1 nodes 0 sectors 1 blocks 9 9\nstart x 0 y 0 z 0 angle 0 rng 1\n";

/// The report of two sectors side by side.
const TWO_SECTORS_REPORT: &[u8] =
    b"level E1M1\nthings 1 lines 7 sides 8 vertices 14 segs 2 subsectors 2 nodes 1 sectors 2 blocks 9 9\nstart x 0 y 0 z 0 angle 0 rng 1\n";

const E1M1: &[u8; 8] = b"E1M1\0\0\0\0";

/// Runs `level` over these files.
fn reported(
    rt: &(impl Threads + Sync),
    alloc: Global,
    maps: &[u8],
    tables: &[u8],
    demo: &[u8],
) -> Result<Left, Fail> {
    let files = [("maps.wad", maps), ("play.ptab", tables), ("in.lmp", demo)];
    ran_over(rt, alloc, &LEVEL, &files, NONE)
}

/// Files, the number that `level` over them ends with, and what it prints.
type Reports<'a> = &'a [(&'a [u8], &'a [u8], &'a [u8], u8, &'a [u8])];

fn expect_reports(
    rt: &(impl Abort + Threads + Sync),
    alloc: Global,
    rows: Reports<'_>,
) -> Result<(), Fail> {
    for (maps, tables, demo, status, text) in rows {
        let left = reported(rt, alloc, maps, tables, demo)?;
        assert_eq!(rt; left.note.bytes(), *text);
        assert_eq!(rt; left.status.number(), *status);
    }
    Ok(())
}

/// The WAD of the single room.
fn room(alloc: Global) -> Result<Vec<u8>, AllocError> {
    wad(alloc, &single_room(alloc)?)
}

/// The WAD of two sectors side by side, with these nodes.
fn two_sectors_with(alloc: Global, nodes: &[PlanNode]) -> Result<Vec<u8>, AllocError> {
    let mut plan = two_sectors(alloc, 1, (0, 128, 0), (0, 128, 0), 0, 0)?;
    plan.nodes = nodes.to_vec(alloc)?;
    wad(alloc, &plan)
}

/// A node from south to north whose line begins here.
fn node(at: (i16, i16), child_0: u16, child_1: u16) -> PlanNode {
    PlanNode {
        at,
        direction: (0, 1024),
        child_0,
        child_1,
    }
}

/// The bytes, with these in place of those from a place on.
fn patched(alloc: Global, bytes: &[u8], at: usize, by: &[u8]) -> Result<Vec<u8>, AllocError> {
    let mut patched = bytes.to_vec(alloc)?;
    for (place, byte) in by.iter().enumerate() {
        if let Some(old) = patched.get_mut(at.wrapping_add(place)) {
            *old = *byte;
        }
    }
    Ok(patched)
}

#[test]
fn a_level_is_reported(rt: HostRuntime) -> Result<(), Fail> {
    let alloc = rt.alloc();
    let tables = play_tables(alloc)?;
    let empty = demo_of_zeros(alloc, 0)?;
    let mut seventh = single_room(alloc)?;
    seventh.label = *b"MAP07\0\0\0";
    let room = room(alloc)?;
    let beside = two_sectors_with(alloc, &[node((1, -512), 0x8001, 0x8000)])?;
    expect_reports(
        &rt,
        alloc,
        &[
            (&room, &tables, &empty, 0, ROOM_REPORT),
            (&beside, &tables, &empty, 0, TWO_SECTORS_REPORT),
            (
                &wad(alloc, &seventh)?,
                &play_tables_of(alloc, &[])?,
                &demo(alloc, &header_at(3, 7), &[[50, 0, 0, 0]])?,
                0,
                b"level MAP07\nthings 1 lines 4 sides 4 vertices 8 segs 1 subsectors 1 nodes 0 sectors 1 blocks 9 9\nstart x 0 y 0 z 0 angle 0 rng 1\n",
            ),
        ],
    )
}

#[test]
fn sixty_nodes_with_two_equal_children_each_are_a_level(rt: HostRuntime) -> Result<(), Fail> {
    let alloc = rt.alloc();
    let mut plan = single_room(alloc)?;
    plan.nodes.push(node((0, 0), 0x8000, 0x8000))?;
    for below in 0..59 {
        plan.nodes.push(node((0, 0), below, below))?;
    }
    expect_reports(
        &rt,
        alloc,
        &[(
            &wad(alloc, &plan)?,
            &play_tables(alloc)?,
            &demo_of_zeros(alloc, 0)?,
            0,
            b"level E1M1\nthings 1 lines 4 sides 4 vertices 8 segs 1 subsectors 1 nodes 60 sectors 1 blocks 9 9\nstart x 0 y 0 z 0 angle 0 rng 1\n",
        )],
    )
}

#[test]
fn the_files_are_judged_in_their_order(rt: HostRuntime) -> Result<(), Fail> {
    let alloc = rt.alloc();
    let tables = play_tables(alloc)?;
    let large = vec![in alloc; 0u8; 131_073]?;
    let short = vec![in alloc; 0u8; 131_072]?;
    let empty = demo_of_zeros(alloc, 0)?;
    let unskilled = patched(alloc, &empty, 1, &[5])?;
    let ninth = demo(alloc, &header_at(1, 9), &[])?;
    let room = room(alloc)?;
    // The front side of line 0 is side 9.
    let faulty = patched(alloc, &room, 32, &[9, 0])?;
    expect_reports(
        &rt,
        alloc,
        &[
            (
                b"XWAD",
                &large,
                &unskilled,
                1,
                b"refused: word 2 too large\n",
            ),
            (b"XWAD", &short, &unskilled, 1, b"refused: wad head\n"),
            (&faulty, &short, &unskilled, 1, b"refused: tables head\n"),
            (&faulty, &tables, &unskilled, 1, b"refused: demo head 1\n"),
            (&faulty, &tables, &ninth, 1, b"refused: no map\n"),
            (
                &faulty,
                &tables,
                &empty,
                1,
                b"refused: level lump 2 entry 0\n",
            ),
        ],
    )
}

/// A thing 40 units east of the player of the single room, on every skill.
fn beside(number: u16) -> PlanThing {
    PlanThing {
        number,
        x: 40,
        y: 0,
        angle: 0,
        options: 7,
    }
}

/// The WAD of the single room under a label, with one thing more.
fn room_with(alloc: Global, label: &[u8; 8], number: u16) -> Result<Vec<u8>, AllocError> {
    let mut plan = single_room(alloc)?;
    plan.label = *label;
    plan.things.push(beside(number))?;
    wad(alloc, &plan)
}

#[test]
fn the_start_is_reported_or_refused(rt: HostRuntime) -> Result<(), Fail> {
    let alloc = rt.alloc();
    let tables = play_tables(alloc)?;
    let empty = demo_of_zeros(alloc, 0)?;
    let mut deserted = single_room(alloc)?;
    deserted.things.clear();
    let key = room_with(alloc, E1M1, 5)?;
    let two = room_with(alloc, E1M1, 1)?;
    let unknown = room_with(alloc, E1M1, 7777)?;
    let later = room_with(alloc, E1M1, 64)?;
    let cubes = room_with(alloc, b"MAP01\0\0\0", 89)?;
    expect_reports(
        &rt,
        alloc,
        &[
            (
                &key,
                &tables,
                &empty,
                0,
                b"level E1M1\nthings 2 lines 4 sides 4 vertices 8 segs 1 subsectors 1 nodes 0 sectors 1 blocks 9 9\nstart x 0 y 0 z 0 angle 0 rng 3\n",
            ),
            (
                &wad(alloc, &deserted)?,
                &tables,
                &empty,
                1,
                b"refused: no start\n",
            ),
            (&two, &tables, &empty, 1, b"refused: voodoo\n"),
            (
                &unknown,
                &tables,
                &empty,
                1,
                b"refused: thing 1 number 7777\n",
            ),
            (&later, &tables, &empty, 1, b"refused: doom2 thing 1\n"),
            (&cubes, &tables, &empty, 1, b"refused: spitter 1\n"),
        ],
    )
}

/// Asserts that the single room is refused with this line where these bytes stand from this place on in its WAD.
fn expect_patches(
    rt: &(impl Abort + Threads + Sync),
    alloc: Global,
    rows: &[(usize, &[u8], &[u8])],
) -> Result<(), Fail> {
    let room = room(alloc)?;
    let tables = play_tables(alloc)?;
    let empty = demo_of_zeros(alloc, 0)?;
    for (at, by, line) in rows {
        let maps = patched(alloc, &room, *at, by)?;
        let left = reported(rt, alloc, &maps, &tables, &empty)?;
        assert_eq!(rt; left.note.bytes(), *line);
        assert_eq!(rt; left.status.number(), 1);
    }
    Ok(())
}

// The room's lumps begin at byte 12, of 10, 56, 120, 32, 12, 4, 0, 26, 0 and 182 bytes, and the directory at 454.
#[test]
fn each_fault_of_a_wad_has_its_line(rt: HostRuntime) -> Result<(), Fail> {
    expect_patches(
        &rt,
        rt.alloc(),
        &[
            (0, b"XWAD", b"refused: wad head\n"),
            (8, b"\xff\xff\xff\x7f", b"refused: wad directory\n"),
            (462, b"E1M2", b"refused: no map\n"),
            (4, b"\x05", b"refused: lump 5\n"),
            (478, b"TEXTMAP", b"refused: map form\n"),
            (32, b"\x09", b"refused: level lump 2 entry 0\n"),
            (106, b"\x07", b"refused: level lump 3 entry 0\n"),
            (236, b"\x09", b"refused: level lump 5 entry 0\n"),
            (242, b"\x00", b"refused: level lump 6 entry 0\n"),
            (276, b"\x00", b"refused: block shape\n"),
            (444, b"\x09", b"refused: level lump 10 entry 0\n"),
        ],
    )
}

#[test]
fn faulty_nodes_and_tables_are_refused(rt: HostRuntime) -> Result<(), Fail> {
    let alloc = rt.alloc();
    let tables = play_tables(alloc)?;
    let empty = demo_of_zeros(alloc, 0)?;
    let room = room(alloc)?;
    let key = PlanKind {
        number: 5,
        flags: 1,
        radius: 0,
        height: 0,
        first: 10,
    };
    // The numbers of the extended node's place are the letters `xNd4`.
    let extended = two_sectors_with(alloc, &[node((0x4e78, 0x3464), 0x8001, 0x8000)])?;
    let loops = two_sectors_with(alloc, &[node((1, -512), 0, 0x8000)])?;
    let absent = two_sectors_with(alloc, &[node((1, -512), 0x8001, 0x8002)])?;
    let cut = tables.get(..49_420).unwrap_or(&[]);
    expect_reports(
        &rt,
        alloc,
        &[
            (&extended, &tables, &empty, 1, b"refused: nodes kind\n"),
            (
                &absent,
                &tables,
                &empty,
                1,
                b"refused: level lump 7 entry 0\n",
            ),
            (&loops, &tables, &empty, 1, b"refused: node loop\n"),
            (&room, b"PTAX\0\0\0\0", &empty, 1, b"refused: tables head\n"),
            (&room, cut, &empty, 1, b"refused: tables length\n"),
            (
                &room,
                &play_tables_of(alloc, &[key, key])?,
                &empty,
                1,
                b"refused: tables kind 1\n",
            ),
        ],
    )
}
