//! Bodies along tables of hits and of things, with numbers worked out by hand.
use crate::rows::{at, behind, expect, int, numbers, short};
use health_fx::{Body, Hurt};
use std::alloc::Global;
use std::process::Abort;
use std::test::Fail;

/// A hit of so many points, in a finale or not: 0 where it was kept off, 1 where the body lived, 2 where it died.
fn hit(body: &mut Body, damage: i32, finale: bool) -> i64 {
    if !(0..=20).contains(&damage) || body.health <= 0 {
        return i64::MIN;
    }
    match body.hurt(damage, finale) {
        Hurt::Spared => 0,
        Hurt::Lived => 1,
        Hurt::Died => 2,
    }
}

fn wait(body: &mut Body, tics: i32) -> i64 {
    for _ in 0..tics {
        body.tick();
    }
    0
}

/// What comes of a row: a hit of its damage, in a finale or not; a thing of its number, in Doom II or not, which is
/// taken or left; or so many tics.
fn come_of(body: &mut Body, line: &str, row: &[i64]) -> i64 {
    let flag = at(row, 2) == 1;
    if line.starts_with("hit") {
        hit(body, int(row, 1), flag)
    } else if line.starts_with("find") {
        i64::from(body.take(short(row, 1), flag))
    } else {
        wait(body, int(row, 1))
    }
}

/// What came of a row, health, armour and its kind, and what is left of an invulnerability, a suit and a teleport's
/// freeze.
fn shown(came: i64, body: &Body) -> [i64; 7] {
    [
        came,
        i64::from(body.health),
        i64::from(body.armour),
        i64::from(body.kind),
        i64::from(body.guard),
        i64::from(body.suit),
        i64::from(body.react),
    ]
}

/// Each row: what is done, what comes of it, and the body then.
fn expect_rows(rt: &impl Abort, alloc: Global, body: &mut Body, rows: &str) -> Result<(), Fail> {
    for line in rows.lines() {
        let row = numbers(alloc, line)?;
        let came = come_of(body, line, &row);
        expect(rt, line, &shown(came, body), behind(&row, 3));
    }
    Ok(())
}

/// A green suit saves a third, a blue one half, and a scrap of armour no more than it has.
const ARMOUR: &str = "\
find 2015 0 1 100 1 1 0 0 0
hit 2 0 1 98 1 1 0 0 0
hit 20 0 1 79 0 0 0 0 0
find 2018 0 1 79 100 1 0 0 0
hit 20 0 1 65 94 1 0 0 0
hit 5 0 1 61 93 1 0 0 0
hit 2 0 1 59 93 1 0 0 0
find 2019 0 1 59 200 2 0 0 0
hit 5 0 1 56 198 2 0 0 0
hit 20 0 1 46 188 2 0 0 0";

/// In the easiest skill half of the damage is left, also in a finale.
const EASY: &str = "\
hit 5 0 1 98 0 0 0 0 0
hit 1 0 1 98 0 0 0 0 0
hit 20 1 1 88 0 0 0 0 0";

/// A finale leaves one point of health.
const FINALE: &str = "\
hit 20 1 1 80 0 0 0 0 0
hit 20 1 1 60 0 0 0 0 0
hit 20 1 1 40 0 0 0 0 0
hit 20 1 1 20 0 0 0 0 0
hit 20 1 1 1 0 0 0 0 0
hit 20 1 1 1 0 0 0 0 0
hit 0 0 1 1 0 0 0 0 0
hit 20 0 2 0 0 0 0 0 0";

/// What each thing restores, and who leaves it.
const THINGS: &str = "\
hit 20 0 1 80 0 0 0 0 0
find 2011 0 1 90 0 0 0 0 0
find 2012 0 1 100 0 0 0 0 0
find 2011 0 0 100 0 0 0 0 0
find 2014 0 1 101 0 0 0 0 0
find 2012 0 0 101 0 0 0 0 0
find 2023 0 1 101 0 0 0 0 0
find 2013 0 1 200 0 0 0 0 0
find 2014 0 1 200 0 0 0 0 0
find 2018 0 1 200 100 1 0 0 0
find 2018 0 0 200 100 1 0 0 0
find 2015 0 1 200 101 1 0 0 0
find 83 0 0 200 101 1 0 0 0
find 83 1 1 200 200 2 0 0 0
find 2019 0 0 200 200 2 0 0 0
find 2015 0 1 200 200 2 0 0 0
find 5 1 0 200 200 2 0 0 0";

/// An invulnerability lasts 1050 tics, a radiation suit 2100. A hit that is kept off leaves a freeze.
const POWERS: &str = "\
find 2022 0 1 100 0 0 1050 0 18
find 2025 0 1 100 0 0 1050 2100 18
hit 20 0 0 100 0 0 1050 2100 18
wait 1050 0 0 100 0 0 0 1050 18
hit 20 0 1 80 0 0 0 1050 0";

#[test]
fn rows_of_bodies(rt: HostRuntime) -> Result<(), Fail> {
    let alloc = rt.alloc();
    expect_rows(&rt, alloc, &mut Body::new(false), ARMOUR)?;
    expect_rows(&rt, alloc, &mut Body::new(true), EASY)?;
    expect_rows(&rt, alloc, &mut Body::new(false), FINALE)?;
    expect_rows(&rt, alloc, &mut Body::new(false), THINGS)?;
    let mut frozen = Body::new(false);
    frozen.react = 18;
    expect_rows(&rt, alloc, &mut frozen, POWERS)
}
