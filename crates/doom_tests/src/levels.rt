//! Games on small levels.
use fixed_angle::PlayTables;
use lmp_codec::{Header, read_demo};
use map_load::load;
use play_step::Doom;
use sample_inputs::{
    HEADER, MapPlan, PlanKind, PlanLine, PlanThing, demo, play_tables_of, single_room, two_sectors,
    wad,
};
use std::alloc::Global;
use std::test::Fail;
use wad_lumps::Wad;

/// A sector's floor, ceiling and tag.
type Ground = (i16, i16, i16);

/// A map with the player at its origin and at most one thing beside.
#[derive(Clone, Copy)]
pub(crate) struct Map {
    /// The sectors west and east of a line, and where it is; `None` for a single room.
    pub strip: Option<(i16, Ground, Ground)>,
    /// The special of the line, or of the room.
    pub special: u16,
    /// The tag of the line.
    pub tag: i16,
    /// The thing's number, place and angle.
    pub thing: Option<(u16, i16, i16, i16)>,
    /// Whether [`WALLS`] stand in the single room.
    pub walls: bool,
}

/// The single room, without special.
pub(crate) const ROOM: Map = Map {
    strip: None,
    special: 0,
    tag: 0,
    thing: None,
    walls: false,
};

const WALL: PlanLine = PlanLine {
    from: (100, -200),
    to: (300, 0),
    flags: 1,
    special: 0,
    tag: 0,
    front: 0,
    back: None,
};

/// Walls of each slope, a fence that blocks, one that only a slide feels, a teleporter, a light that is crossed and one
/// that is switched.
const WALLS: [PlanLine; 10] = [
    WALL,
    PlanLine {
        from: (-60, 240),
        to: (-200, 100),
        ..WALL
    },
    PlanLine {
        from: (64, 256),
        to: (64, 64),
        ..WALL
    },
    PlanLine {
        from: (-300, -100),
        to: (-80, -100),
        ..WALL
    },
    PlanLine {
        from: (-100, -300),
        to: (100, -400),
        ..WALL
    },
    PlanLine {
        from: (-64, 64),
        to: (-64, -64),
        flags: 5,
        back: Some(0),
        ..WALL
    },
    PlanLine {
        from: (200, 150),
        to: (300, 50),
        flags: 4,
        special: 97,
        back: Some(0),
        ..WALL
    },
    PlanLine {
        from: (-250, -300),
        to: (-250, -200),
        flags: 0,
        back: Some(0),
        ..WALL
    },
    PlanLine {
        from: (0, -100),
        to: (60, -100),
        flags: 4,
        special: 81,
        back: Some(0),
        ..WALL
    },
    PlanLine {
        from: (-20, 128),
        to: (20, 128),
        special: 139,
        ..WALL
    },
];

/// A level floor with a line one unit east of the player.
pub(crate) const STRIP: Map = Map {
    strip: Some((1, (0, 128, 0), (0, 128, 7))),
    ..ROOM
};

fn ground(alloc: Global, map: Map) -> Result<MapPlan, Fail> {
    if let Some((middle, west, east)) = map.strip {
        let plan = two_sectors(alloc, middle, west, east, map.special, map.tag)?;
        return Ok(plan);
    }
    let mut plan = single_room(alloc)?;
    for sector in &mut plan.sectors {
        sector.special = map.special;
    }
    if map.walls {
        plan.lines.extend_from_slice(&WALLS)?;
    }
    Ok(plan)
}

fn plan_of(alloc: Global, map: Map) -> Result<MapPlan, Fail> {
    let mut plan = ground(alloc, map)?;
    if let Some((number, x, y, angle)) = map.thing {
        let thing = PlanThing {
            number,
            x,
            y,
            angle,
            options: 7,
        };
        plan.things.push(thing)?;
    }
    Ok(plan)
}

/// A kind with these flags, whose first state has this length.
fn kind(number: u16, flags: u16, first: i32) -> PlanKind {
    PlanKind {
        number,
        flags,
        radius: 1_310_720,
        height: 1_048_576,
        first,
    }
}

/// Tables with a key, a teleporter's exit, an armour and a suit. Random numbers are 13 and then always 97 more,
/// modulo 256.
fn tables(alloc: Global) -> Result<PlayTables, Fail> {
    let kinds = [
        kind(5, 1, 10),
        kind(14, 32, 0),
        kind(2018, 1, 6),
        kind(2025, 1, 0),
    ];
    let tables = PlayTables::read(alloc, &play_tables_of(alloc, &kinds)?).map_err(
        |_| "the tables have no fault",
    )?;
    Ok(tables)
}

fn header(alloc: Global) -> Result<Header, Fail> {
    let demo = read_demo(alloc, &demo(alloc, &HEADER, &[])?).map_err(|_| "it is a demo")?;
    Ok(demo.header)
}

/// The game on a map.
pub(crate) fn game(alloc: Global, map: Map) -> Result<Doom, Fail> {
    let plan = plan_of(alloc, map)?;
    let wad = Wad::read(wad(alloc, &plan)?).map_err(|_| "the file is a WAD")?;
    let spans = wad.map(alloc, 1, 1).map_err(|_| "the map is there")?;
    let level = load(alloc, &wad, &spans).map_err(|_| "the level has no fault")?;
    let game = Doom::new(alloc, level, tables(alloc)?, header(alloc)?).map_err(
        |_| "the level starts",
    )?;
    Ok(game)
}
