//! Every number from 0 to 400, crossed and used, from the front and from the back, with and without sectors that have
//! the line's tag.
use crate::cases::{Case, Last, Seen, Touch, Way, try_cases};
use crate::fixtures::{Line, Side, TAG, started, strip, tables};
use crate::rows::{BY_HAND, CROSSED, CROSSED_HALTS, Row, STILL, USED, USED_HALTS};
use cow_world::PlayFault;
use game_trait::Halt;
use std::alloc::{AllocError, Global};
use std::process::Abort;
use std::test::Fail;

/// Nothing comes of a number.
fn idle(number: u16) -> Case {
    let seen = Seen {
        made: 0,
        last: Last::Nothing,
        lights: STILL,
        exited: 0,
        special: number,
        acted: false,
    };
    Case {
        number,
        keys: 7,
        ends: Ok(seen),
    }
}

/// What a row says.
fn acting(row: &Row) -> Case {
    let (number, keys, made, last, lights, exited, special, acted) = *row;
    let seen = Seen {
        made,
        last,
        lights,
        exited,
        special,
        acted,
    };
    Case {
        number,
        keys,
        ends: Ok(seen),
    }
}

/// What is left of it where no sector has the line's tag.
fn alone(row: &Row) -> Case {
    let (number, keys, _, _, _, exited, special, acted) = *row;
    acting(&(
        number,
        keys,
        0,
        Last::Nothing,
        STILL,
        exited,
        special,
        acted,
    ))
}

fn push_rows(cases: &mut Vec<Case>, rows: &[Row]) -> Result<(), AllocError> {
    for row in rows {
        cases.push(acting(row))?;
    }
    Ok(())
}

fn push_halts(cases: &mut Vec<Case>, numbers: &[u16]) -> Result<(), AllocError> {
    for number in numbers {
        let case = Case {
            number: *number,
            keys: 7,
            ends: Err(PlayFault::Halt(Halt::Special(*number))),
        };
        cases.push(case)?;
    }
    Ok(())
}

fn is_listed(cases: &[Case], number: u16) -> bool {
    cases.iter().any(|case| case.number == number)
}

/// Nothing comes of all other numbers.
fn push_others(alloc: Global, cases: &mut Vec<Case>) -> Result<(), AllocError> {
    let listed = cases.to_vec(alloc)?;
    for number in 0..=400 {
        if !is_listed(&listed, number) {
            cases.push(idle(number))?;
        }
    }
    Ok(())
}

/// All numbers, as they are crossed.
fn crossed(alloc: Global) -> Result<Vec<Case>, AllocError> {
    let mut cases = Vec::new(alloc);
    push_rows(&mut cases, &CROSSED)?;
    push_halts(&mut cases, &CROSSED_HALTS)?;
    push_others(alloc, &mut cases)?;
    Ok(cases)
}

/// All numbers, as they are used from the front.
fn used(alloc: Global) -> Result<Vec<Case>, AllocError> {
    let mut cases = Vec::new(alloc);
    push_rows(&mut cases, &USED)?;
    push_rows(&mut cases, &BY_HAND)?;
    push_halts(&mut cases, &USED_HALTS)?;
    push_others(alloc, &mut cases)?;
    Ok(cases)
}

/// Tries cases on a new strip, both of whose sectors have the tag of line 0.
fn try_on_strip(rt: &impl Abort, alloc: Global, touch: Touch, cases: &[Case]) -> Result<(), Fail> {
    let level = strip(alloc, TAG, TAG, &[])?;
    let tables = tables(alloc)?;
    let mut world = started(alloc, &level, &tables)?;
    try_cases(rt, alloc, &level, &tables, &mut world, touch, cases)
}

// Lines that are crossed act from either side.
#[test]
fn crossed_lines(rt: HostRuntime) -> Result<(), Fail> {
    let cases = crossed(rt.alloc())?;
    for side in [Side::Front, Side::Back] {
        let touch = Touch {
            way: Way::Crossed,
            line: Line::Border,
            side,
        };
        try_on_strip(&rt, rt.alloc(), touch, &cases)?;
    }
    Ok(())
}

#[test]
fn used_lines(rt: HostRuntime) -> Result<(), Fail> {
    let touch = Touch {
        way: Way::Used,
        line: Line::Border,
        side: Side::Front,
    };
    try_on_strip(&rt, rt.alloc(), touch, &used(rt.alloc())?)
}

// From the back no number does anything, not even those that halt.
#[test]
fn used_from_the_back(rt: HostRuntime) -> Result<(), Fail> {
    let mut cases = Vec::new(rt.alloc());
    push_others(rt.alloc(), &mut cases)?;
    let touch = Touch {
        way: Way::Used,
        line: Line::Border,
        side: Side::Back,
    };
    try_on_strip(&rt, rt.alloc(), touch, &cases)
}

/// What crossed lines do where no sector has their tag: they act, and lose their numbers, all the same.
fn crossed_alone(alloc: Global) -> Result<Vec<Case>, AllocError> {
    let mut cases = Vec::new(alloc);
    for row in &CROSSED {
        cases.push(alone(row))?;
    }
    Ok(cases)
}

/// Switches that act where no sector has their tag: exits and lights.
const ALWAYS: [u16; 4] = [11, 51, 138, 139];

/// What switches do where no sector has their tag, to a player with all keys. Line 1 has no back, so that doors that are
/// opened by hand halt, and are left out.
fn used_alone(alloc: Global) -> Result<Vec<Case>, AllocError> {
    let mut cases = Vec::new(alloc);
    for row in &USED {
        if ALWAYS.contains(&row.0) {
            cases.push(alone(row))?;
        } else {
            cases.push(idle(row.0))?;
        }
    }
    Ok(cases)
}

#[test]
fn lines_without_sectors(rt: HostRuntime) -> Result<(), Fail> {
    let crossed = Touch {
        way: Way::Crossed,
        line: Line::Wall,
        side: Side::Front,
    };
    try_on_strip(&rt, rt.alloc(), crossed, &crossed_alone(rt.alloc())?)?;
    let used = Touch {
        way: Way::Used,
        line: Line::Wall,
        side: Side::Front,
    };
    try_on_strip(&rt, rt.alloc(), used, &used_alone(rt.alloc())?)
}
