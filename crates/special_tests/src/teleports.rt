//! Teleporters: where they lead, how the player comes out, and what stands in the way.
ghost use Rattle.special_tests.specs.Ready.{IsReady};

use crate::fixtures::{
    BARREL, KEY, Line, MARKER, Side, TAG, UNIT, cross, prepare, started, strip, tables, thing,
};
use cow_world::{PlayFault, Player, World};
use fixed_angle::PlayTables;
use game_trait::Halt;
use line_specials::Crossed;
use map_geometry::Level;
use sample_inputs::PlanThing;
use std::alloc::Global;
use std::process::Abort;
use std::test::Fail;

/// How the player stands after a line was crossed: x, y, z, floor and ceiling; momentum; angle; for how long it can't
/// move; the random index; and the line's special.
#[derive(Clone, Copy, Debug, PartialEq, Eq)]
struct Stands {
    crossed: Crossed,
    at: [i32; 5],
    momentum: [i32; 3],
    angle: u32,
    react: u32,
    rng: u8,
    special: u16,
}

/// The player moves.
fn push_player(level: &Level, tables: &PlayTables, world: &mut World)
    requires { IsReady level.now tables.now world.old }
    ensures { IsReady level.now tables.now world.new }
{
    let _level = level;
    let _tables = tables;
    let player = world.player();
    world.set_player(Player {
        momx: 3,
        momy: -5,
        momz: 7,
        ..player
    });
}

fn look_at(level: &Level, tables: &PlayTables, world: &World, crossed: Crossed) -> Stands
    requires { IsReady level.now tables.now world.now }
{
    let _level = level;
    let _tables = tables;
    let player = world.player();
    let at = world.thing(player.thing);
    Stands {
        crossed,
        at: [at.x, at.y, at.z, at.floorz, at.ceilingz],
        momentum: [player.momx, player.momy, player.momz],
        angle: player.angle,
        react: player.body.react,
        rng: world.rng(),
        special: world.line_special(0),
    }
}

fn outcome(
    alloc: Global,
    level: &Level,
    tables: &PlayTables,
    world: &mut World,
    special: u16,
    side: Side,
) -> Result<Stands, PlayFault>
    requires { IsReady level.now tables.now world.old }
{
    push_player(level, tables, world);
    prepare(level, tables, world, Line::Border, special, 0)?;
    let crossed = cross(alloc, level, tables, world, Line::Border, side)?;
    Ok(look_at(level, tables, world, crossed))
}

/// A strip with these tags and things, and line 0 crossed with a special from a side.
#[derive(Clone, Copy)]
struct Trip<'a> {
    tags: (i16, i16),
    things: &'a [PlanThing],
    special: u16,
    side: Side,
}

fn try_trip(
    rt: &impl Abort,
    alloc: Global,
    trip: &Trip<'_>,
    ends: Result<Stands, PlayFault>,
) -> Result<(), Fail> {
    let Trip {
        tags,
        things,
        special,
        side,
    } = *trip;
    let level = strip(alloc, tags.0, tags.1, things)?;
    let tables = tables(alloc)?;
    let mut world = started(alloc, &level, &tables)?;
    let found = outcome(alloc, &level, &tables, &mut world, special, side);
    assert_eq!(rt; found, ends);
    Ok(())
}

const BOTH: (i16, i16) = (TAG, TAG);

/// The player stays where it started, moves on, and nothing is drawn.
fn stays(special: u16, rng: u8) -> Stands {
    Stands {
        crossed: Crossed::Stays,
        at: [0, 0, 0, 0, 128 * UNIT],
        momentum: [3, -5, 7],
        angle: 0,
        react: 0,
        rng,
        special,
    }
}

/// The player comes out at (-100, 200), looking north.
fn comes_out(special: u16, rng: u8) -> Stands {
    Stands {
        crossed: Crossed::Teleported,
        at: [-6_553_600, 13_107_200, 0, 0, 8_388_608],
        momentum: [0, 0, 0],
        angle: 1_073_741_824,
        react: 18,
        rng,
        special,
    }
}

// Two random numbers are drawn at the start, for the player and for the exit, and two on the way.
#[test]
fn sides(rt: HostRuntime) -> Result<(), Fail> {
    let things = [thing(MARKER, -100, 200, 90)];
    let rows = [
        (39, Side::Front, comes_out(0, 4)),
        (97, Side::Front, comes_out(97, 4)),
        (39, Side::Back, stays(0, 2)),
        (97, Side::Back, stays(97, 2)),
    ];
    for (special, side, ends) in rows {
        let trip = Trip {
            tags: BOTH,
            things: &things,
            special,
            side,
        };
        try_trip(&rt, rt.alloc(), &trip, Ok(ends))?;
    }
    Ok(())
}

// The first sector that has an exit, and in it the first exit, in the order of the map.
#[test]
fn exits(rt: HostRuntime) -> Result<(), Fail> {
    let west = thing(MARKER, -100, 200, 90);
    let other = thing(MARKER, -200, -200, 0);
    let east = thing(MARKER, 200, 100, 180);
    let in_the_east = Stands {
        at: [200 * UNIT, 100 * UNIT, 24 * UNIT, 24 * UNIT, 96 * UNIT],
        angle: 2_147_483_648,
        ..comes_out(97, 5)
    };
    let rows = [
        (BOTH, [east, west], comes_out(97, 5)),
        (BOTH, [west, other], comes_out(97, 5)),
        ((0, TAG), [west, east], in_the_east),
        ((0, TAG), [west, other], stays(97, 3)),
        ((0, 0), [west, east], stays(97, 3)),
    ];
    for (tags, things, ends) in rows {
        let trip = Trip {
            tags,
            things: &things,
            special: 97,
            side: Side::Front,
        };
        try_trip(&rt, rt.alloc(), &trip, Ok(ends))?;
    }
    Ok(())
}

// What can be hurt is in the way where it is nearer than both radii, 36 units, in both directions; what can only be
// touched isn't.
#[test]
fn in_the_way(rt: HostRuntime) -> Result<(), Fail> {
    let stomp = Err(PlayFault::Halt(Halt::Stomp));
    let free = Ok(comes_out(97, 5));
    let rows = [
        (thing(BARREL, -100, 200, 0), stomp),
        (thing(BARREL, -65, 165, 0), stomp),
        (thing(BARREL, -64, 200, 0), free),
        (thing(BARREL, -100, 164, 0), free),
        (thing(KEY, -100, 200, 0), free),
    ];
    for (other, ends) in rows {
        let things = [thing(MARKER, -100, 200, 90), other];
        let trip = Trip {
            tags: BOTH,
            things: &things,
            special: 97,
            side: Side::Front,
        };
        try_trip(&rt, rt.alloc(), &trip, ends)?;
    }
    Ok(())
}
