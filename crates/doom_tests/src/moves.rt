//! Moves over the floor, up and down.
use crate::levels::{Map, ROOM};
use crate::played::{rest, run, shown, still};
use std::test::Fail;

/// 2048 a unit of input; of each momentum 59392 / 65536 are left, and nothing of one below 4096 without input.
#[test]
fn over_the_floor(rt: HostRuntime) -> Result<(), Fail> {
    assert_eq!(rt;
        shown(rt.alloc(), ROOM, &[run(2)])?,
        still(2, [297_600, 0, 0], [176_900, 0, 0])
    );
    assert_eq!(rt;
        shown(rt.alloc(), ROOM, &[(1, 0, 0, 1), rest(1)])?,
        still(2, [3904, 0, 0], [0, 0, 0])
    );
    Ok(())
}

/// Two sectors of these floors.
const fn floors(middle: i16, west: i16, east: i16) -> Map {
    Map {
        strip: Some((middle, (west, 192, 0), (east, 192, 0))),
        ..ROOM
    }
}

/// A floor of 24 units is stepped on, and one of 25 is a wall.
#[test]
fn steps(rt: HostRuntime) -> Result<(), Fail> {
    assert_eq!(rt;
        shown(rt.alloc(), floors(20, 0, 24), &[run(2)])?,
        still(2, [297_600, 0, 1_572_864], [176_900, 0, 0])
    );
    assert_eq!(rt;
        shown(rt.alloc(), floors(20, 0, 25), &[run(2)])?,
        still(2, [256_043, 0, 0], [0, 0, 0])
    );
    Ok(())
}

/// In the air there is neither thrust nor friction.
#[test]
fn falls(rt: HostRuntime) -> Result<(), Fail> {
    assert_eq!(rt;
        shown(rt.alloc(), floors(0, 64, 0), &[run(5)])?,
        still(5, [1_357_000, 0, 4_194_304], [424_585, 0, -131_072])
    );
    assert_eq!(rt;
        shown(rt.alloc(), floors(0, 64, 0), &[run(6)])?,
        still(6, [1_781_585, 0, 4_063_232], [424_585, 0, -196_608])
    );
    Ok(())
}
