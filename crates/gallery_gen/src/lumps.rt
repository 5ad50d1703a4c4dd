//! The lumps of a gallery's map.
ghost use Rattle.std.specs.Prelude.{◌≡◌, ◌≤◌, ◌<◌, ◌+◌, ◌*◌, ◌++◌, length, OnOk, IfOk};
ghost use Rattle.std.specs.List.{flat_map, range_with_len};
ghost use Rattle.gallery_gen.specs.Lumps.{word, thing_at, things, line_head, linedef, sidedef, behind, sidedefs, vertices, seg, subsector, west_child, node_of, sector, sectors_from, blocks, offsets, block_list, blockmap};

use crate::bytes::{push_signed, push_word, push_zeros};
use crate::plan::{PlanLine, Room, border};
use doom_edge::Memory;
use std::alloc::Global;

/// The south of all rooms, in map units.
const SOUTH: i16 = -128;

/// The end of a block's list.
const NONE: u16 = 65_535;

/// What marks a child that is a subsector.
const SUBSECTOR: u16 = 32_768;

fn push_thing(out: &mut Vec<u8>, x: i16, number: u16) -> Result<(), Memory>
    ensures { OnOk result (out.new.items ≡ out.old.items ++ thing_at x number) }
{
    push_signed(out, x)?;
    push_signed(out, 0)?;
    push_word(out, 0)?;
    push_word(out, number)?;
    push_word(out, 7)
}

/// The player in the first room, and a blue key in the third.
pub fn things(alloc: Global) -> Result<Vec<u8>, Memory>
    ensures { IfOk result (λ lump. lump.items ≡ things) }
{
    let mut lump = Vec::new(alloc);
    push_thing(&mut lump, 0, 1)?;
    push_thing(&mut lump, 512, 5)?;
    Ok(lump)
}

fn push_line_head(out: &mut Vec<u8>, line: &PlanLine) -> Result<(), Memory>
    ensures { OnOk result (out.new.items ≡ out.old.items ++ line_head line.now) }
{
    push_word(out, line.v1)?;
    push_word(out, line.v2)?;
    push_word(out, line.flags)?;
    push_word(out, line.special)?;
    push_word(out, line.tag)
}

fn push_linedef(out: &mut Vec<u8>, line: &PlanLine) -> Result<(), Memory>
    ensures { OnOk result (out.new.items ≡ out.old.items ++ linedef line.now) }
{
    push_line_head(out, line)?;
    push_word(out, line.side)?;
    push_word(out, line.back_side)
}

pub fn linedefs(alloc: Global, lines: &[PlanLine]) -> Result<Vec<u8>, Memory>
    ensures { IfOk result (λ lump. lump.items ≡ flat_map linedef lines.now) }
{
    let mut lump = Vec::new(alloc);
    for line in lines {
        push_linedef(&mut lump, line)?;
    }
    Ok(lump)
}

fn push_sidedef(out: &mut Vec<u8>, room: u16) -> Result<(), Memory>
    ensures { OnOk result (out.new.items ≡ out.old.items ++ sidedef room) }
{
    push_zeros(out, 28)?;
    push_word(out, room)
}

fn push_behind(out: &mut Vec<u8>, back: Option<u16>) -> Result<(), Memory>
    ensures { OnOk result (out.new.items ≡ out.old.items ++ behind back) }
{
    match back {
        None => Ok(()),
        Some(room) => push_sidedef(out, room),
    }
}

fn push_sidedefs(out: &mut Vec<u8>, line: &PlanLine) -> Result<(), Memory>
    ensures { OnOk result (out.new.items ≡ out.old.items ++ sidedefs line.now) }
{
    push_sidedef(out, line.front)?;
    push_behind(out, line.back)
}

pub fn all_sidedefs(alloc: Global, lines: &[PlanLine]) -> Result<Vec<u8>, Memory>
    ensures { IfOk result (λ lump. lump.items ≡ flat_map sidedefs lines.now) }
{
    let mut lump = Vec::new(alloc);
    for line in lines {
        push_sidedefs(&mut lump, line)?;
    }
    Ok(lump)
}

fn push_vertices(out: &mut Vec<u8>, line: &PlanLine) -> Result<(), Memory>
    ensures { OnOk result (out.new.items ≡ out.old.items ++ vertices line.now) }
{
    push_signed(out, line.x1)?;
    push_signed(out, line.y1)?;
    push_signed(out, line.x2)?;
    push_signed(out, line.y2)
}

pub fn all_vertices(alloc: Global, lines: &[PlanLine]) -> Result<Vec<u8>, Memory>
    ensures { IfOk result (λ lump. lump.items ≡ flat_map vertices lines.now) }
{
    let mut lump = Vec::new(alloc);
    for line in lines {
        push_vertices(&mut lump, line)?;
    }
    Ok(lump)
}

fn push_seg(out: &mut Vec<u8>, room: u16) -> Result<(), Memory>
    requires { room < 8 }
    ensures { OnOk result (out.new.items ≡ out.old.items ++ seg room) }
{
    push_zeros(out, 6)?;
    push_word(out, 2 * room)?;
    push_word(out, 0)?;
    push_word(out, 0)
}

#[tactic(auto, using(crate::proofs::Each::each_first))]
pub fn segs(alloc: Global, rooms: u16) -> Result<Vec<u8>, Memory>
    requires { rooms ≤ 8 }
    ensures { IfOk result (λ lump. lump.items ≡ flat_map seg (range_with_len 0 rooms)) }
{
    let mut lump = Vec::new(alloc);
    for room in 0..rooms {
        push_seg(&mut lump, room)?;
    }
    Ok(lump)
}

fn push_subsector(out: &mut Vec<u8>, room: u16) -> Result<(), Memory>
    ensures { OnOk result (out.new.items ≡ out.old.items ++ subsector room) }
{
    push_word(out, 1)?;
    push_word(out, room)
}

#[tactic(auto, using(crate::proofs::Each::each_first))]
pub fn subsectors(alloc: Global, rooms: u16) -> Result<Vec<u8>, Memory>
    ensures { IfOk result (λ lump. lump.items ≡ flat_map subsector (range_with_len 0 rooms)) }
{
    let mut lump = Vec::new(alloc);
    for room in 0..rooms {
        push_subsector(&mut lump, room)?;
    }
    Ok(lump)
}

// What lies to the west of a border: the first room, or the node before.
fn west_child(node: u16) -> u16
    ensures { result ≡ west_child node }
{
    if node == 0 { SUBSECTOR } else { node - 1 }
}

fn push_node(out: &mut Vec<u8>, node: u16) -> Result<(), Memory>
    requires { node < 8 }
    ensures { OnOk result (out.new.items ≡ out.old.items ++ node_of node) }
{
    push_signed(out, border(node + 1))?;
    push_signed(out, SOUTH)?;
    push_word(out, 0)?;
    push_word(out, 256)?;
    push_zeros(out, 16)?;
    push_word(out, SUBSECTOR + (node + 1))?;
    push_word(out, west_child(node))
}

#[tactic(auto, using(crate::proofs::Each::each_first))]
pub fn nodes(alloc: Global, count: u16) -> Result<Vec<u8>, Memory>
    requires { count ≤ 8 }
    ensures { IfOk result (λ lump. lump.items ≡ flat_map node_of (range_with_len 0 count)) }
{
    let mut lump = Vec::new(alloc);
    for node in 0..count {
        push_node(&mut lump, node)?;
    }
    Ok(lump)
}

fn push_sector(out: &mut Vec<u8>, tag: u16, room: &Room) -> Result<(), Memory>
    ensures { OnOk result (out.new.items ≡ out.old.items ++ sector tag room.now) }
{
    push_word(out, room.floor)?;
    push_word(out, 160)?;
    push_zeros(out, 16)?;
    push_word(out, room.light)?;
    push_word(out, room.special)?;
    push_word(out, tag)
}

#[tactic(auto, using(crate::proofs::Each::sectors_next))]
pub fn sectors(alloc: Global, rooms: &[Room]) -> Result<Vec<u8>, Memory>
    requires { length rooms.now ≤ 8 }
    ensures { IfOk result (λ lump. lump.items ≡ sectors_from 0 rooms.now) }
{
    let mut lump = Vec::new(alloc);
    for tag in 0..rooms.len() {
        push_sector(&mut lump, tag as u16, &rooms[tag])?;
    }
    Ok(lump)
}

#[tactic(auto, using(crate::proofs::Each::each_more))]
fn push_offsets(out: &mut Vec<u8>, rooms: u16) -> Result<(), Memory>
    requires { rooms ≤ 8 }
    ensures { OnOk result (out.new.items ≡ out.old.items ++ offsets rooms) }
{
    let blocks = (2 * rooms + 1) * 3;
    for _block in 0..blocks {
        push_word(out, 4 + blocks)?;
    }
    Ok(())
}

// The numbers of so many lines.
#[tactic(auto, using(crate::proofs::Each::each_more))]
fn push_numbers(out: &mut Vec<u8>, count: u16) -> Result<(), Memory>
    ensures { OnOk result (out.new.items ≡ out.old.items ++ flat_map word (range_with_len 0 count)) }
{
    for line in 0..count {
        push_word(out, line)?;
    }
    Ok(())
}

fn push_block_list(out: &mut Vec<u8>, rooms: u16) -> Result<(), Memory>
    requires { rooms ≤ 8 }
    ensures { OnOk result (out.new.items ≡ out.old.items ++ block_list rooms) }
{
    push_word(out, 0)?;
    push_numbers(out, 3 * rooms + 1)?;
    push_word(out, NONE)
}

pub fn blockmap(alloc: Global, rooms: u16) -> Result<Vec<u8>, Memory>
    requires { rooms ≤ 8 }
    ensures { IfOk result (λ lump. lump.items ≡ blockmap rooms) }
{
    let mut lump = Vec::new(alloc);
    push_signed(&mut lump, border(0))?;
    push_signed(&mut lump, SOUTH)?;
    push_word(&mut lump, 2 * rooms + 1)?;
    push_word(&mut lump, 3)?;
    push_offsets(&mut lump, rooms)?;
    push_block_list(&mut lump, rooms)?;
    Ok(lump)
}
