//! Lists in pages: forks, writes and growth.
use crate::rows::{behind, counted, expect, numbers, word};
use doom_edge::{Memory, Steps};
use page_store::Store;
use std::alloc::Global;
use std::process::Abort;
use std::test::Fail;

/// A store of the numbers below `len`.
fn counting(alloc: Global, len: u32) -> Result<Store<u32>, Fail> {
    let mut items = Vec::new(alloc);
    for item in 0..len {
        items.push(item)?;
    }
    Ok(Store::from_list(alloc, items)?)
}

/// Writes a number at a place, or behind the last.
fn write(
    store: &mut Store<u32>,
    place: usize,
    number: u32,
    steps: &mut Steps,
) -> Result<(), Memory> {
    if place < store.len() {
        store.set(place, number, steps)
    } else {
        store.push(number, steps)
    }
}

fn number_at(store: &Store<u32>, place: usize) -> i64 {
    if place < store.len() {
        i64::from(store.get(place))
    } else {
        -1
    }
}

/// The page steps so far, and of both stores the numbers at 40, at 41, at 99 and behind it.
fn shown(origin: &Store<u32>, forked: &Store<u32>, steps: &Steps) -> [i64; 9] {
    [
        counted(steps.pages()),
        number_at(origin, 40),
        number_at(origin, 41),
        number_at(origin, 99),
        number_at(origin, 100),
        number_at(forked, 40),
        number_at(forked, 41),
        number_at(forked, 99),
        number_at(forked, 100),
    ]
}

/// Which store is written, at which place, and the number; and what is shown then. Each write copies one page at most,
/// and leaves the other store.
const WRITES: &str = "\
fork 40 7 33 40 41 99 -1 7 41 99 -1
fork 41 8 34 40 41 99 -1 7 8 99 -1
origin 40 9 67 9 41 99 -1 7 8 99 -1
origin 100 100 72 9 41 99 100 7 8 99 -1";

fn write_in_turn(
    rt: &impl Abort,
    alloc: Global,
    origin: &mut Store<u32>,
    forked: &mut Store<u32>,
    steps: &mut Steps,
) -> Result<(), Fail> {
    for line in WRITES.lines() {
        let row = numbers(alloc, line)?;
        let (place, number) = (word(&row, 1) as usize, word(&row, 2));
        if line.starts_with("fork") {
            write(forked, place, number, steps)?;
        } else {
            write(origin, place, number, steps)?;
        }
        expect(rt, line, &shown(origin, forked, steps), behind(&row, 3));
    }
    Ok(())
}

/// A fork of a store that was not written names nothing.
#[test]
fn forks_and_writes(rt: HostRuntime) -> Result<(), Fail> {
    let mut origin = counting(rt.alloc(), 100)?;
    let mut steps = Steps::new();
    let mut forked = origin.fork(&mut steps)?;
    let found = shown(&origin, &forked, &steps);
    expect(
        &rt,
        "the fork",
        &found,
        &[0, 40, 41, 99, -1, 40, 41, 99, -1],
    );
    write_in_turn(&rt, rt.alloc(), &mut origin, &mut forked, &mut steps)
}

/// Whether a store holds the numbers below `len`, and no more.
fn counts_to(store: &Store<u32>, len: u32) -> bool {
    for place in 0..store.len() {
        if store.get(place) as usize != place {
            return false;
        }
    }
    store.len() == len as usize
}

fn grows_from(alloc: Global, len: u32) -> Result<bool, Fail> {
    let mut store = counting(alloc, len)?;
    store.push(len, &mut Steps::new())?;
    Ok(counts_to(&store, len.wrapping_add(1)))
}

/// The lengths about that of a page at which a store doesn't grow by one.
fn wrong_lengths(alloc: Global) -> Result<Vec<u32>, Fail> {
    let mut wrong = Vec::new(alloc);
    for len in 0..70 {
        if !grows_from(alloc, len)? {
            wrong.push(len)?;
        }
    }
    Ok(wrong)
}

#[test]
fn grows_over_pages(rt: HostRuntime) -> Result<(), Fail> {
    let wrong = wrong_lengths(rt.alloc())?;
    assert_eq!(rt; wrong.as_slice(), [].as_slice());
    Ok(())
}
