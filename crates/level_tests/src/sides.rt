//! Sides, boxes and intercepts that were worked out apart from the program.
use crate::rows::{behind, expect, int, number, numbers};
use map_geometry::{
    Area, DivLine, Line, Node, Slope, box_side, divline_side, intercept, line_side, node_side,
};
use std::process::Abort;
use std::test::Fail;

const U: i32 = 65536;

const NO_AREA: Area = Area {
    top: 0,
    bottom: 0,
    left: 0,
    right: 0,
};

/// The slope of a way.
fn slope_of(dx: i32, dy: i32) -> Slope {
    if dx == 0 {
        Slope::Vertical
    } else if dy == 0 {
        Slope::Horizontal
    } else if (dx > 0) == (dy > 0) {
        Slope::Positive
    } else {
        Slope::Negative
    }
}

/// A line from (16, -8) along a way in map units.
fn line(dx: i32, dy: i32) -> Line {
    Line {
        v1: 0,
        v2: 1,
        front_side: 0,
        back_side: None,
        flags: 1,
        special: 0,
        tag: 0,
        x: 16 * U,
        y: -8 * U,
        dx: dx.wrapping_mul(U),
        dy: dy.wrapping_mul(U),
        area: NO_AREA,
        slope: slope_of(dx, dy),
        front: 0,
        back: None,
    }
}

/// Places round that line, in fixed point, and far from it, where differences wrap.
const PLACES: [(i32, i32); 15] = [
    (0, 0),
    (16 * U, -8 * U),
    (17 * U, -8 * U),
    (16 * U, -7 * U),
    (15 * U, -9 * U),
    (80 * U, 56 * U),
    (80 * U, 55 * U),
    (-48 * U, -72 * U),
    (40 * U, -32 * U),
    (40 * U, -31 * U),
    (-100 * U, 100 * U),
    (100 * U, -100 * U),
    (i32::MIN, i32::MAX),
    (i32::MAX, i32::MIN),
    (i32::MIN, i32::MIN),
];

#[derive(Clone, Copy)]
enum By {
    Line,
    Node,
    Trace,
}

/// The side of a place by a line, by a node's line, or by a trace.
fn side_by(by: By, of: &Line, x: i32, y: i32) -> u32 {
    match by {
        By::Line => line_side(of, x, y),
        By::Node => {
            let node = Node {
                x: of.x,
                y: of.y,
                dx: of.dx,
                dy: of.dy,
                child_0: 0,
                child_1: 0,
            };
            node_side(&node, x, y)
        }
        By::Trace => {
            let trace = DivLine {
                x: of.x,
                y: of.y,
                dx: of.dx,
                dy: of.dy,
            };
            divline_side(&trace, x, y)
        }
    }
}

/// A side as the tables have it.
fn digit(side: Option<u32>) -> u8 {
    match side {
        Some(0) => b'0',
        Some(1) => b'1',
        _ => b'-',
    }
}

/// Whether the places have these sides.
fn places_agree(by: By, of: &Line, places: &[(i32, i32)], sides: &[u8]) -> bool {
    for (i, (x, y)) in places.iter().enumerate() {
        if sides.get(i).copied() != Some(digit(Some(side_by(by, of, *x, *y)))) {
            return false;
        }
    }
    true
}

/// A way, and the side of each place: by a line, by a node's line, and by a trace.
const WAYS: &str = "\
0 64 110110010010101 110110010010101 110110010010101
0 -64 001001101101010 001001101101010 001001101101010
64 0 100101100010100 100101100010100 100101100010100
-64 0 011010011101011 011010011101011 011010011101011
64 64 110111010010000 110111010010000 110111010010000
64 -64 011101101100000 011101101100000 011101101100000
-64 64 110010011011111 100010011011111 100010011011111
-64 -64 011011111101111 011011111101111 011011111101111
100 30 110101100010000 110101100010000 110101100010000
0 0 000000000000000 000000000000000 000000000000000";

/// Asserts what a row of ways says.
fn expect_sides(rt: &impl Abort, row: &str) {
    let mut words = row.split_whitespace();
    let (dx, dy) = (next_int(words.next()), next_int(words.next()));
    let line = line(dx, dy);
    for by in [By::Line, By::Node, By::Trace] {
        let sides = words.next().unwrap_or("").as_bytes();
        assert!(rt; places_agree(by, &line, &PLACES, sides), "{row}");
    }
}

fn next_int(word: Option<&str>) -> i32 {
    i32::try_from(number(word.unwrap_or(""))).unwrap_or(0)
}

#[test]
fn sides_of_places(rt: HostRuntime) {
    for row in WAYS.lines() {
        expect_sides(&rt, row);
    }
}

/// Top, bottom, left and right in map units.
const BOXES: [(i8, i8, i8, i8); 8] = [
    (-20, -40, -10, 10),
    (40, 20, -10, 10),
    (10, -10, 0, 40),
    (100, 60, -100, -60),
    (-60, -100, 60, 100),
    (-8, -8, 16, 16),
    (0, -8, 16, 40),
    (40, -8, -30, 16),
];

/// Whether the boxes have these sides.
fn boxes_agree(of: &Line, boxes: &[(i8, i8, i8, i8)], sides: &[u8]) -> bool {
    for (i, (top, bottom, left, right)) in boxes.iter().enumerate() {
        let area = Area {
            top: i32::from(*top) * U,
            bottom: i32::from(*bottom) * U,
            left: i32::from(*left) * U,
            right: i32::from(*right) * U,
        };
        if sides.get(i).copied() != Some(digit(box_side(of, &area))) {
            return false;
        }
    }
    true
}

/// A way, and the side of each box, or none.
const BOX_WAYS: &str = "\
0 64 11-1000-
0 -64 00-0111-
64 0 01-100--
-64 0 10-011--
64 64 -1-101-1
64 -64 01---11-
-64 64 10---1--
-64 -64 -0-011--
100 30 01-101-1";

#[test]
fn sides_of_boxes(rt: HostRuntime) {
    for row in BOX_WAYS.lines() {
        let mut words = row.split_whitespace();
        let line = line(next_int(words.next()), next_int(words.next()));
        let sides = words.next().unwrap_or("").as_bytes();
        assert!(rt; boxes_agree(&line, &BOXES, sides), "{row}");
    }
}

/// A trace and a line, each by its place and its way in map units, and how far along the trace they meet.
const MEETINGS: &str = "\
0 0 100 0 50 -50 0 100 32768
0 0 100 0 50 50 0 -100 32768
0 0 100 0 150 -50 0 100 98304
0 0 100 0 -50 -50 0 100 -32768
0 0 100 0 0 10 100 0 0
0 0 100 100 100 0 -100 100 32768
0 0 -100 0 -25 -5 0 10 16384
10 20 0 -200 0 -80 64 0 32768
0 0 3 7 1 1 5 -2 11189
0 0 0 0 1 1 1 1 0
-1000 -1000 2000 2000 0 1000 1000 -1000 49152
0 0 30000 30000 20000 0 0 30000 43690
1 1 599 -1 512 512 0 -1024 55908";

/// The way that begins at this place of a row.
fn way(row: &[i64], place: usize) -> DivLine {
    DivLine {
        x: int(row, place).wrapping_mul(U),
        y: int(row, place.wrapping_add(1)).wrapping_mul(U),
        dx: int(row, place.wrapping_add(2)).wrapping_mul(U),
        dy: int(row, place.wrapping_add(3)).wrapping_mul(U),
    }
}

#[test]
fn intercepts(rt: HostRuntime) -> Result<(), Fail> {
    for line in MEETINGS.lines() {
        let row = numbers(rt.alloc(), line)?;
        let met = intercept(&way(&row, 0), &way(&row, 4));
        expect(&rt, line, &[i64::from(met)], behind(&row, 8));
    }
    Ok(())
}
