//! A door that is used, and a lift that is started by a step over a line.
use crate::levels::{Map, ROOM};
use crate::played::{press, rest, run, sector, shown, still};
use std::test::Fail;

const DOOR: Map = Map {
    strip: Some((48, (0, 128, 0), (0, 0, 0))),
    special: 1,
    ..ROOM
};

/// The door opens from tic 2 on, two units a tic, waits for 150 tics from the 64th on, and comes down again.
#[test]
fn door(rt: HostRuntime) -> Result<(), Fail> {
    for (more, ceiling) in [
        (0, 131_072),
        (62, 8_126_464),
        (212, 8_126_464),
        (213, 7_995_392),
    ] {
        let tics = [rest(1), press(2), rest(more)];
        assert_eq!(rt;
            sector(rt.alloc(), DOOR, &tics, 1)?,
            Some((0, ceiling, 128))
        );
    }
    Ok(())
}

const LIFT: Map = Map {
    strip: Some((0, (128, 256, 1), (0, 256, 0))),
    special: 88,
    tag: 1,
    ..ROOM
};

/// The player rides the lift down, which waits for 105 tics from the 32nd on.
#[test]
fn lift(rt: HostRuntime) -> Result<(), Fail> {
    assert_eq!(rt;
        shown(rt.alloc(), LIFT, &[run(1)])?,
        still(1, [102_400, 0, 8_126_464], [92_800, 0, 0])
    );
    for (more, floor) in [(31, 0), (137, 0), (138, 262_144)] {
        let tics = [run(1), rest(more)];
        assert_eq!(rt;
            sector(rt.alloc(), LIFT, &tics, 0)?,
            Some((floor, 16_777_216, 128))
        );
    }
    Ok(())
}
