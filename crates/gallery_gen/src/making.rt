//! A gallery as a whole.
ghost use Rattle.std.specs.Prelude.{◌≡◌, ◌≤◌, ◌<◌, length, fold, IfOk, OnOk};
ghost use Rattle.gallery_gen.specs.Plan.{room_count};
ghost use Rattle.gallery_gen.specs.Wad.{packed_with, wad_with};
ghost use Rattle.gallery_gen.specs.Tables.{tables_bytes};
ghost use Rattle.gallery_gen.specs.Gallery.{line_lumps, tree_lumps, sector_lumps, lumps_of, tic_count, wad_bytes, demo_bytes};

use crate::demo::demo_with;
use crate::draws::Draws;
use crate::files::Gallery;
use crate::lumps::{
    all_sidedefs, all_vertices, blockmap, linedefs, nodes, sectors, segs, subsectors, things,
};
use crate::plan::{lines_of, rooms_of};
use crate::tables::tables;
use crate::wads::WadWriter;
use doom_edge::Memory;
use std::alloc::Global;

// The label, the things, and all about lines.
fn add_lines(alloc: Global, wad: &mut WadWriter, rooms: u16) -> Result<(), Memory>
    requires some { 0 < rooms }
    requires few { rooms ≤ 8 }
    ensures { OnOk result (wad.new ≡ fold packed_with wad.old (line_lumps rooms)) }
{
    let lines = lines_of(alloc, rooms)?;
    wad.add(b"MAP01\0\0\0", &[])?;
    wad.add(b"THINGS\0\0", &things(alloc)?)?;
    wad.add(b"LINEDEFS", &linedefs(alloc, &lines)?)?;
    wad.add(b"SIDEDEFS", &all_sidedefs(alloc, &lines)?)?;
    wad.add(b"VERTEXES", &all_vertices(alloc, &lines)?)
}

// The tree.
fn add_tree(alloc: Global, wad: &mut WadWriter, rooms: u16) -> Result<(), Memory>
    requires some { 0 < rooms }
    requires few { rooms ≤ 8 }
    ensures { OnOk result (wad.new ≡ fold packed_with wad.old (tree_lumps rooms)) }
{
    wad.add(b"SEGS\0\0\0\0", &segs(alloc, rooms)?)?;
    wad.add(b"SSECTORS", &subsectors(alloc, rooms)?)?;
    wad.add(b"NODES\0\0\0", &nodes(alloc, rooms - 1)?)
}

// The sectors, for which these numbers were drawn, and the blockmap.
fn add_sectors(alloc: Global, wad: &mut WadWriter, rooms: u16, drawn: &[u16]) -> Result<(), Memory>
    requires few { rooms ≤ 8 }
    requires drawn { length drawn.now ≡ rooms }
    ensures { OnOk result (wad.new ≡ fold packed_with wad.old (sector_lumps rooms drawn.now)) }
{
    wad.add(b"SECTORS\0", &sectors(alloc, &rooms_of(alloc, drawn)?)?)?;
    wad.add(b"REJECT\0\0", &[])?;
    wad.add(b"BLOCKMAP", &blockmap(alloc, rooms)?)
}

// The WAD of so many rooms, for which these numbers were drawn.
fn wad_of(alloc: Global, rooms: u16, drawn: &[u16]) -> Result<Vec<u8>, Memory>
    requires some { 0 < rooms }
    requires few { rooms ≤ 8 }
    requires drawn { length drawn.now ≡ rooms }
    ensures { IfOk result (λ bytes. bytes.items ≡ wad_with (lumps_of rooms drawn.now)) }
{
    let mut wad = WadWriter::new(alloc);
    add_lines(alloc, &mut wad, rooms)?;
    add_tree(alloc, &mut wad, rooms)?;
    add_sectors(alloc, &mut wad, rooms, drawn)?;
    wad.file(alloc)
}

/// The gallery of a number: 4 to 8 rooms, and 600 to 1,000 tics. Each room's floor, light and special come from a number
/// that is drawn for it, and each tic from one that is drawn after those. It takes about the time of its bytes.
#[tactic(auto, unfolding(crate::specs::Gallery::wad_bytes, crate::specs::Gallery::demo_bytes))]
pub fn gallery(alloc: Global, number: u32) -> Result<Gallery, Memory>
    ensures wad { IfOk result (λ made. made.wad.items ≡ wad_bytes number) }
    ensures tables { IfOk result (λ made. made.tables.items ≡ tables_bytes) }
    ensures demo { IfOk result (λ made. made.demo.items ≡ demo_bytes number) }
    ensures rooms { IfOk result (λ made. made.rooms ≡ room_count number) }
    ensures tics { IfOk result (λ made. made.tics ≡ tic_count number) }
{
    let rooms = 4 + number % 5;
    let tics = 600 + number % 5 * 100;
    let mut draws = Draws::new(number);
    let for_rooms = draws.take(alloc, rooms)?;
    let for_tics = draws.take(alloc, tics)?;
    Ok(Gallery {
        wad: wad_of(alloc, rooms as u16, &for_rooms)?,
        tables: tables(alloc)?,
        demo: demo_with(alloc, &for_tics)?,
        rooms,
        tics,
    })
}
