use crate::rows::{at, behind, expect, int, numbers};
use brute_ranges::{Range, Space, SpaceFault, TicRanges};
use lmp_codec::Tic;
use std::alloc::{AllocError, Global};
use std::process::Abort;
use std::test::Fail;

/// The range that begins at this place of a row.
fn range(row: &[i64], place: usize) -> Range {
    Range {
        low: int(row, place),
        high: int(row, place.wrapping_add(1)),
    }
}

/// The ranges of forward, side, turn and use, each by its low and its high bound, from this place of a row on.
fn ranges(row: &[i64], place: usize) -> TicRanges {
    TicRanges {
        forward: range(row, place),
        side: range(row, place.wrapping_add(2)),
        turn: range(row, place.wrapping_add(4)),
        using: range(row, place.wrapping_add(6)),
    }
}

/// So many tics: the last with the ranges of a row, before it some whose values are all the same.
fn tics_of(
    alloc: Global,
    count: i64,
    before: TicRanges,
    last: TicRanges,
) -> Result<Vec<TicRanges>, AllocError> {
    let mut tics = Vec::new(alloc);
    for _ in 1..count {
        tics.push(before)?;
    }
    if count > 0 {
        tics.push(last)?;
    }
    Ok(tics)
}

/// The first fault of the ranges, or the number of sequences.
fn judged(alloc: Global, tics: Vec<TicRanges>, long: bool) -> Result<u64, SpaceFault> {
    Ok(Space::new(alloc, tics, long)?.count())
}

/// The answer of a row: 0 is the number of sequences, and the others are faults.
fn answer(row: &[i64]) -> Result<u64, SpaceFault> {
    let number = at(row, 1);
    let tic = usize::try_from(number).unwrap_or(usize::MAX);
    match at(row, 0) {
        0 => Ok(u64::try_from(number).unwrap_or(u64::MAX)),
        1 => Err(SpaceFault::Depth(tic)),
        2 => Err(SpaceFault::Bounds(tic)),
        3 => Err(SpaceFault::EmptyRange(tic)),
        _ => Err(SpaceFault::TooMany),
    }
}

/// Asserts of each row that so many tics have this answer: the last with these ranges, and those before it with
/// `before`.
fn expect_answers(
    rt: &impl Abort,
    alloc: Global,
    rows: &str,
    before: &str,
    long: bool,
) -> Result<(), Fail> {
    let before = ranges(&numbers(alloc, before)?, 0);
    for line in rows.lines() {
        let row = numbers(alloc, line)?;
        let tics = tics_of(alloc, at(&row, 2), before, ranges(&row, 3))?;
        assert_eq!(rt; judged(alloc, tics, long), answer(&row));
    }
    Ok(())
}

/// Every value is 0.
const STILL: &str = "0 0 0 0 0 0 0 0";

/// Any turn.
const TURNING: &str = "0 0 0 0 0 255 0 0";

/// The kind of the answer, its number, the number of tics, and the ranges of the last of them.
const EDGES: &str = "\
1 0 0 0 0 0 0 0 0 0 0
1 36 36 0 0 0 0 0 0 0 0
0 1 35 0 0 0 0 0 0 0 0
0 33423360 1 -127 127 -128 127 -128 127 0 1
2 2 3 -128 127 0 0 0 0 0 0
2 2 3 0 128 0 0 0 0 0 0
2 2 3 0 0 -129 0 0 0 0 0
2 2 3 0 0 0 128 0 0 0 0
2 2 3 0 0 0 0 -129 0 0 0
2 2 3 0 0 0 0 0 256 0 0
2 2 3 0 0 0 0 -1 255 0 0
2 2 3 0 0 0 0 0 0 -1 0
2 2 3 0 0 0 0 0 0 0 2
2 2 3 1 0 0 0 0 0 2 0
3 1 2 1 0 0 0 0 0 0 0
3 1 2 0 0 1 0 0 0 0 0
3 1 2 0 0 0 0 255 -128 0 0
3 1 2 0 0 0 0 0 0 1 0";

/// The same behind tics of any turn.
const MANY: &str = "\
0 1099511627776 5 0 0 0 0 0 255 0 0
4 0 6 0 0 0 0 0 0 0 1";

/// The same of a long demo.
const LONG: &str = "\
0 65536 1 0 0 0 0 -32768 32767 0 0
0 65536 1 0 0 0 0 0 65535 0 0
0 301 1 0 0 0 0 0 300 0 0
2 0 1 0 0 0 0 -1 65535 0 0
2 0 1 0 0 0 0 -32769 0 0 0
2 0 1 0 0 0 0 0 65536 0 0
3 0 1 0 0 0 0 1 0 0 0";

#[test]
fn faults_at_their_edges(rt: HostRuntime) -> Result<(), Fail> {
    expect_answers(&rt, rt.alloc(), EDGES, STILL, false)?;
    expect_answers(&rt, rt.alloc(), MANY, TURNING, false)?;
    expect_answers(&rt, rt.alloc(), LONG, STILL, true)
}

/// The numbers of a sequence's tics, one tic after the other.
fn sequence_of(alloc: Global, space: &Space, number: u64) -> Result<Vec<i64>, AllocError> {
    let mut found = Vec::new(alloc);
    if number < space.count() {
        for place in 0..space.depth() {
            push_tics(&mut found, &[space.tic_at(number, place)])?;
        }
    }
    Ok(found)
}

fn push_tics(found: &mut Vec<i64>, tics: &[Tic]) -> Result<(), AllocError> {
    for tic in tics {
        found.push(i64::from(tic.forward))?;
        found.push(i64::from(tic.side))?;
        found.push(i64::from(tic.turn))?;
        found.push(i64::from(tic.buttons))?;
    }
    Ok(())
}

/// The space of so many tics with these ranges.
fn space_of(alloc: Global, count: i64, row: &str, long: bool) -> Result<Space, Fail> {
    let tic = ranges(&numbers(alloc, row)?, 0);
    let tics = tics_of(alloc, count, tic, tic)?;
    let space = Space::new(alloc, tics, long)?;
    Ok(space)
}

/// Asserts that each row's sequence has the tics that stand behind its number.
fn expect_sequences(rt: &impl Abort, alloc: Global, space: &Space, rows: &str) -> Result<(), Fail> {
    for line in rows.lines() {
        let row = numbers(alloc, line)?;
        let number = u64::try_from(at(&row, 0)).unwrap_or(u64::MAX);
        let found = sequence_of(alloc, space, number)?;
        expect(rt, line, &found, behind(&row, 1));
    }
    Ok(())
}

const SEQUENCES: &str = "\
0 -2 3 65280 0 -2 3 65280 0
1 -2 3 65280 0 -2 3 65280 2
2 -2 3 65280 0 -2 3 0 0
1810 -1 4 65280 2 -2 4 256 0
5183 1 5 256 2 1 5 256 2";

const LONG_SEQUENCES: &str = "\
0 0 0 65535 0
1 0 0 0 0
257 0 0 256 0
301 0 0 300 0";

#[test]
fn tics_of_some_sequences(rt: HostRuntime) -> Result<(), Fail> {
    let alloc = rt.alloc();
    let long = space_of(alloc, 1, "0 0 0 0 -1 300 0 0", true)?;
    expect_sequences(&rt, alloc, &long, LONG_SEQUENCES)?;
    let space = space_of(alloc, 2, "-2 1 3 5 -1 1 0 1", false)?;
    assert_eq!(rt; space.count(), 5184);
    assert_eq!(rt; space.depth(), 2);
    expect_sequences(&rt, alloc, &space, SEQUENCES)?;
    let shared = [
        space.shared(0, 71),
        space.shared(71, 72),
        space.shared(72, 72),
    ];
    assert_eq!(rt; shared, [1, 0, 2]);
    Ok(())
}

/// The tics of sequence 0 with what follows the first of them written anew.
fn rewritten(alloc: Global, space: &Space, number: u64) -> Result<Vec<i64>, Fail> {
    let mut found = Vec::new(alloc);
    if number < space.count() && space.depth() == 2 {
        let mut tics = space.sequence(alloc, 0)?;
        space.write(number, 1, &mut tics);
        push_tics(&mut found, &tics)?;
    }
    Ok(found)
}

#[test]
fn what_follows_is_written(rt: HostRuntime) -> Result<(), Fail> {
    let space = space_of(rt.alloc(), 2, "-2 1 3 5 -1 1 0 1", false)?;
    let found = rewritten(rt.alloc(), &space, 1810)?;
    expect(&rt, "1810", &found, &[-2, 3, 65280, 0, -2, 4, 256, 0]);
    Ok(())
}
