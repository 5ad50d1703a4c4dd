//! What is refused.
use crate::maps::{Map, no_tics, tables, wad_of};
use crate::over::{BUILD, NONE, SIM, ran_over, ran_session};
use doom_edge::NoGate;
use std::test::Fail;

/// A script and an order file, and the line of their refusal.
const REFUSALS: [(&[u8], &[u8], &[u8]); 18] = [
    (
        b"brute 1\nrange 1 forward 0 50\nwant x >= 65536\ngo\nseek 2\n",
        b"",
        b"refused: line 5: place 1\n",
    ),
    (
        b"brute 5\nrange all turn 0 255\nrange 1 use 0 1\ngo\n",
        b"",
        b"refused: line 4: space\n",
    ),
    (b"jump 3", b"", b"refused: line 1: word\n"),
    (b"put x 0 0 0", b"", b"refused: line 1: number\n"),
    (b"put 200 0 0 0", b"", b"refused: line 1: range\n"),
    (b"put 1", b"", b"refused: line 1: missing\n"),
    (b"go", b"", b"refused: line 1: missing\n"),
    (b"put 1 0 0 0 0", b"", b"refused: line 1: word\n"),
    (b"seek 1000001", b"", b"refused: line 1: range\n"),
    (
        b"seek 1234567890123456789",
        b"",
        b"refused: line 1: number\n",
    ),
    (
        b"brute 1\nwant x < 65536u\ngo",
        b"",
        b"refused: line 2: range\n",
    ),
    (
        b"brute 1\nrange 1 turn 0 300\ngo",
        b"",
        b"refused: line 2: range\n",
    ),
    (b"repeat 1", b"", b"refused: line 1: before\n"),
    (b"show sector 1", b"", b"refused: line 1: name\n"),
    (
        b"show\nbrute 1\nwant line 4\ngo",
        b"",
        b"refused: line 3: name\n",
    ),
    (b"", b"0 64", b"refused: order at 2\n"),
    (b"show sector 1", b"100", b"refused: order at 0\n"),
    (b"jump", b"x", b"refused: line 1: word\n"),
];

#[test]
fn scripts_and_orders_are_refused(rt: HostRuntime) -> Result<(), Fail> {
    let alloc = rt.alloc();
    let wad = wad_of(alloc, Map::Room)?;
    let tables = tables(alloc)?;
    let demo = no_tics(alloc)?;
    for (script, order, line) in REFUSALS {
        let left = ran_session(
            &rt, &NoGate, alloc, &SIM, &wad, &tables, &demo, script, order, NONE,
        )?;
        assert_eq!(&rt; left.note.bytes(), line);
        assert_eq!(&rt; left.status.number(), 1);
        assert!(&rt; left.shelf.file("out.lmp").is_none(), "{line:?}");
    }
    Ok(())
}

/// Words behind those of `build` that make them no command line.
const MISUSES: [(&str, &str); 6] = [
    ("--workers", "0"),
    ("--workers", "65"),
    ("--workers", "04"),
    ("--workers", "100"),
    ("--workers", ""),
    ("--worker", "4"),
];

#[test]
fn other_words_are_no_command_line(rt: HostRuntime) -> Result<(), Fail> {
    let alloc = rt.alloc();
    for (word, count) in MISUSES {
        let words = [
            BUILD[0], BUILD[1], BUILD[2], BUILD[3], BUILD[4], BUILD[5], word, count,
        ];
        let left = ran_over(&rt, alloc, &words, &[], NONE)?;
        assert_eq!(&rt; left.status.number(), 2);
    }
    let left = ran_over(&rt, alloc, &["build"], &[], NONE)?;
    assert_eq!(&rt; left.status.number(), 2);
    Ok(())
}
