use crate::rows::{at, behind, expect, numbers};
use build_edits::{EditFault, Tape};
use lmp_codec::{MOST_TICS, Tic};
use std::alloc::Global;
use std::test::Fail;

#[derive(Clone, Copy)]
pub enum Edit {
    Seek(u32),
    Put(i8),
    Insert(i8),
    Delete,
    Cut,
    Repeat(u32),
    Accept(i8, i8),
}

/// A tic that moves ahead by so much.
pub fn ahead(forward: i8) -> Tic {
    Tic {
        forward: forward.max(-127),
        side: 0,
        turn: 0,
        buttons: 0,
    }
}

fn carry_out(tape: &mut Tape, edit: Edit) -> Result<(), EditFault> {
    match edit {
        Edit::Seek(place) => tape.seek(place),
        Edit::Put(forward) => tape.put(ahead(forward)),
        Edit::Insert(forward) => tape.insert(ahead(forward)),
        Edit::Delete => tape.delete(),
        Edit::Cut => tape.cut(),
        Edit::Repeat(count) => tape.repeat(count),
        Edit::Accept(first, second) => tape.accept(&[ahead(first), ahead(second)]),
    }
}

/// A command with its two numbers, its answer, the cursor, and the tics. An answer is -1 where all is well, -2 where
/// no tic is before, and else the place at fault.
const EDITS: &str = "\
repeat 1 0 -2 0
delete 0 0 0 0
seek 1 0 0 0
put 1 0 -1 1 1
repeat 2 0 -1 3 1 1 1
delete 0 0 3 3 1 1 1
seek 1 0 -1 1 1 1 1
insert 2 0 -1 2 1 2 1 1
delete 0 0 -1 2 1 2 1
seek 0 0 -1 0 1 2 1
put 3 0 -1 1 3 2 1
repeat 1 0 -1 2 3 3 1
repeat 2 0 -1 4 3 3 3 3
seek 2 0 -1 2 3 3 3 3
cut 0 0 -1 2 3 3
seek 1 0 -1 1 3 3
accept 4 5 -1 3 3 4 5
seek 4 0 3 3 3 4 5";

/// The edit of a row, whose first letter tells its command.
fn edit_of(line: &str, row: &[i64]) -> Edit {
    let place = u32::try_from(at(row, 1)).unwrap_or(u32::MAX);
    let (first, second) = (small(row, 1), small(row, 2));
    match line.as_bytes().first() {
        Some(b's') => Edit::Seek(place),
        Some(b'p') => Edit::Put(first),
        Some(b'i') => Edit::Insert(first),
        Some(b'd') => Edit::Delete,
        Some(b'c') => Edit::Cut,
        Some(b'r') => Edit::Repeat(place),
        _ => Edit::Accept(first, second),
    }
}

fn small(row: &[i64], place: usize) -> i8 {
    i8::try_from(at(row, place)).unwrap_or(i8::MAX)
}

fn answer_of(row: &[i64]) -> Result<(), EditFault> {
    match at(row, 3) {
        -1 => Ok(()),
        -2 => Err(EditFault::Before),
        place => Err(EditFault::Place(u32::try_from(place).unwrap_or(u32::MAX))),
    }
}

/// The cursor, and how far ahead each tic of the tape moves.
fn held(alloc: Global, tape: &Tape) -> Result<Vec<i64>, Fail> {
    let mut held = Vec::new(alloc);
    held.push(i64::from(tape.cursor()))?;
    for place in 0..u32::try_from(tape.len())? {
        if let Some(tic) = tape.tic(place) {
            held.push(i64::from(tic.forward))?;
        }
    }
    Ok(held)
}

#[test]
fn each_edit_does_what_its_command_says(rt: HostRuntime) -> Result<(), Fail> {
    let mut tape = Tape::new(Vec::new(rt.alloc()));
    for line in EDITS.lines() {
        let row = numbers(rt.alloc(), line)?;
        let answer = carry_out(&mut tape, edit_of(line, &row));
        assert_eq!(rt; answer, answer_of(&row));
        let held = held(rt.alloc(), &tape)?;
        expect(&rt, line, &held, behind(&row, 4));
    }
    Ok(())
}

/// How many of the first tics move ahead.
fn ahead_among(tape: &Tape, tics: u32) -> u32 {
    let mut found = 0u32;
    for place in 0..tics {
        if tape.tic(place).is_some_and(|tic| tic.forward > 0) {
            found = found.wrapping_add(1);
        }
    }
    found
}

#[test]
fn a_full_tape_takes_no_more(rt: HostRuntime) -> Result<(), Fail> {
    let mut tape = Tape::new(vec![in rt.alloc(); ahead(0); 1_000_000]?);
    for (place, edit, answer) in [
        (0, Edit::Seek(1_000_001), Err(EditFault::Place(1_000_000))),
        (1_000_000, Edit::Put(1), Err(EditFault::TooLong)),
        (1_000_000, Edit::Insert(1), Err(EditFault::TooLong)),
        (1_000_000, Edit::Repeat(1), Err(EditFault::TooLong)),
        (999_999, Edit::Accept(1, 1), Err(EditFault::TooLong)),
        (999_999, Edit::Insert(1), Err(EditFault::TooLong)),
        (999_999, Edit::Repeat(2), Err(EditFault::TooLong)),
    ] {
        assert_eq!(rt; tape.seek(place), Ok(()));
        assert_eq!(rt; carry_out(&mut tape, edit), answer);
        assert_eq!(rt; tape.cursor(), place);
        assert_eq!(rt; tape.len(), MOST_TICS);
    }
    assert_eq!(rt; ahead_among(&tape, 1_000_000), 0);
    assert_eq!(rt; tape.seek(999_999), Ok(()));
    for _ in 0..100_000 {
        assert_eq!(rt; tape.delete(), Ok(()));
        assert_eq!(rt; tape.put(ahead(1)), Ok(()));
        assert_eq!(rt; tape.seek(999_999), Ok(()));
    }
    assert_eq!(rt; tape.repeat(1), Ok(()));
    assert_eq!(rt; tape.len(), MOST_TICS);
    Ok(())
}

#[test]
fn a_long_tape_is_edited_at_any_place(rt: HostRuntime) -> Result<(), Fail> {
    let mut tape = Tape::new(vec![in rt.alloc(); ahead(0); 100_000]?);
    for edit in 0..20_000u32 {
        // No place comes twice, since no factor of 7,919 is one of 100,000.
        assert_eq!(rt; tape.seek(edit.wrapping_mul(7_919) % 100_000), Ok(()));
        assert_eq!(rt; tape.delete(), Ok(()));
        assert_eq!(rt; tape.insert(ahead(1)), Ok(()));
    }
    assert_eq!(rt; tape.len(), 100_000);
    assert_eq!(rt; ahead_among(&tape, 100_000), 20_000);
    Ok(())
}
