//! Lines that the player crosses: a teleporter, an exit, a light.
use crate::levels::{Map, ROOM, STRIP};
use crate::played::{reading, rest, run, sector, shown, still, turned};
use game_trait::Quantity;
use std::test::Fail;

const TELEPORTER: Map = Map {
    special: 39,
    thing: Some((14, -100, 200, 90)),
    ..STRIP
};

/// The exit turns the player north, draws two numbers, and holds the player for 18 tics.
#[test]
fn teleporter(rt: HostRuntime) -> Result<(), Fail> {
    let north = (1_073_741_824, 4, 0);
    let place = [-6_553_600, 13_107_200, 0];
    assert_eq!(rt;
        shown(rt.alloc(), TELEPORTER, &[run(19)])?,
        turned(19, place, [0, 0, 0], north)
    );
    let place = [-6_553_600, 13_209_600, 0];
    assert_eq!(rt;
        shown(rt.alloc(), TELEPORTER, &[run(20)])?,
        turned(20, place, [0, 92_800, 0], north)
    );
    Ok(())
}

/// Without an exit nothing happens.
#[test]
fn no_exit(rt: HostRuntime) -> Result<(), Fail> {
    let map = Map {
        thing: None,
        ..TELEPORTER
    };
    assert_eq!(rt;
        shown(rt.alloc(), map, &[run(1)])?,
        still(1, [102_400, 0, 0], [92_800, 0, 0])
    );
    Ok(())
}

/// A tic behind the exit only counts.
#[test]
fn exit(rt: HostRuntime) -> Result<(), Fail> {
    let map = Map {
        special: 52,
        ..STRIP
    };
    assert_eq!(rt;
        shown(rt.alloc(), map, &[run(1), rest(1)])?,
        turned(2, [102_400, 0, 0], [92_800, 0, 0], (0, 1, 1))
    );
    Ok(())
}

/// The line lights the sector of its tag alone.
#[test]
fn light(rt: HostRuntime) -> Result<(), Fail> {
    let map = Map {
        special: 35,
        tag: 7,
        ..STRIP
    };
    for (number, light) in [(0, 128), (1, 35)] {
        let found = sector(rt.alloc(), map, &[run(1)], number)?;
        assert_eq!(rt; found, Some((0, 8_388_608, light)));
    }
    Ok(())
}

/// A flash waits for 65 tics, for 1 and for 2, as the random numbers 207, 48 and 145 have it.
#[test]
fn flash(rt: HostRuntime) -> Result<(), Fail> {
    let map = Map { special: 1, ..ROOM };
    for (tics, rng) in [(64, 2), (65, 3), (66, 4), (67, 4), (68, 5)] {
        let found = reading(rt.alloc(), map, &[rest(tics)], Quantity::Rng)?;
        assert_eq!(rt; found, Some(rng));
    }
    Ok(())
}
