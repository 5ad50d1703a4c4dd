//! The files that the tests name: maps, tables, and demos behind the sample header.
use sample_inputs::{
    HEADER, MapPlan, PlanKind, PlanThing, demo, picket_room, play_tables_of, single_room,
    two_sectors, wad,
};
use std::alloc::{AllocError, Global};

/// A sector's floor, ceiling and tag.
type Ground = (i16, i16, i16);

/// A map with the player at its origin.
#[derive(Clone, Copy)]
pub enum Map {
    /// The single room.
    Room,
    /// The single room with this special.
    Special(u16),
    /// The single room with this special, and a thing of this number 40 units, or so many, east of the player.
    Beside(u16, u16, i16),
    /// A sector west and one east of a line at this place, which has this special and tag.
    Strip(i16, Ground, Ground, u16, i16),
    /// A flat strip whose line, one unit east of the player, has this special, and a teleporter's exit.
    Exit(u16),
    /// So many free lines with this special in a row east of the player.
    Pickets(u16, u16),
    /// The single room under the label `MAP07`.
    Seventh,
}

/// The single room with a special and a thing more.
fn room_with(alloc: Global, special: u16, thing: Option<PlanThing>) -> Result<MapPlan, AllocError> {
    let mut plan = single_room(alloc)?;
    for sector in &mut plan.sectors {
        sector.special = special;
    }
    if let Some(thing) = thing {
        plan.things.push(thing)?;
    }
    Ok(plan)
}

fn thing(number: u16, x: i16, y: i16, angle: i16) -> PlanThing {
    PlanThing {
        number,
        x,
        y,
        angle,
        options: 7,
    }
}

fn plan_of(alloc: Global, map: Map) -> Result<MapPlan, AllocError> {
    match map {
        Map::Room => single_room(alloc),
        Map::Special(special) => room_with(alloc, special, None),
        Map::Beside(special, number, x) => {
            room_with(alloc, special, Some(thing(number, x, 0, 0)))
        }
        Map::Strip(middle, west, east, special, tag) => {
            two_sectors(alloc, middle, west, east, special, tag)
        }
        Map::Exit(special) => {
            let mut plan = two_sectors(alloc, 1, (0, 128, 0), (0, 128, 0), special, 0)?;
            plan.things.push(thing(14, -100, 200, 90))?;
            Ok(plan)
        }
        Map::Pickets(count, special) => picket_room(alloc, count, special),
        Map::Seventh => {
            let mut plan = single_room(alloc)?;
            let label = *b"MAP07\0\0\0";
            plan.label = label;
            Ok(plan)
        }
    }
}

/// The WAD of a map.
pub fn wad_of(alloc: Global, map: Map) -> Result<Vec<u8>, AllocError> {
    wad(alloc, &plan_of(alloc, map)?)
}

/// A kind with these flags, whose first state has this length.
fn kind(number: u16, flags: u16, first: i32) -> PlanKind {
    PlanKind {
        number,
        flags,
        radius: 1_310_720,
        height: 1_048_576,
        first,
    }
}

/// Tables with a key, a teleporter's exit and an armour.
pub fn tables(alloc: Global) -> Result<Vec<u8>, AllocError> {
    play_tables_of(alloc, &[kind(5, 1, 10), kind(14, 32, 0), kind(2018, 1, 6)])
}

/// The header of a demo of version 111.
pub const LONG: [u8; 13] = [111, 2, 1, 1, 0, 0, 0, 1, 0, 1, 0, 0, 0];

/// These bytes behind a header, and the end byte behind them.
pub fn ended(alloc: Global, header: &[u8], behind: &[u8]) -> Result<Vec<u8>, AllocError> {
    let mut bytes = header.to_vec(alloc)?;
    bytes.extend_from_slice(behind)?;
    bytes.push(0x80)?;
    Ok(bytes)
}

/// A demo without tics.
pub fn no_tics(alloc: Global) -> Result<Vec<u8>, AllocError> {
    demo(alloc, &HEADER, &[])
}
