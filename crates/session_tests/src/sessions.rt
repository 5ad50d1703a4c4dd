use crate::game::Rooms;
use build_edits::EditFault;
use build_script::read_script;
use build_session::{Searcher, Session, SessionFault};
use doom_edge::{NoGate, Steps};
use search_core::Turns;
use std::alloc::Global;
use std::process::Abort;
use std::test::Fail;
use std::thread::Threads;

/// Asserts that a script over a demo without tics ends so, with this report, so many tics, and so many played.
fn expect_session(
    rt: &(impl Abort + Threads + Sync),
    alloc: Global,
    text: &[u8],
    fault: Option<SessionFault>,
    report: &[u8],
    left: usize,
    played: u64,
) -> Result<(), Fail> {
    let script = read_script(alloc, text, true, false)?;
    let mut session = Session::begin(alloc, Rooms::new(), Vec::new(alloc))?;
    let turns = Turns::new(alloc, b"")?;
    let mut steps = Steps::new();
    let ended = session.carry_out(
        alloc,
        rt,
        &NoGate,
        &Searcher::Hands(&turns),
        &script,
        &mut steps,
    );
    assert_eq!(rt; ended.err(), fault);
    let (told, tics) = session.finish()?;
    assert!(rt; told.as_slice() == report, "{text:?}");
    assert_eq!(rt; tics.len(), left);
    assert_eq!(rt; steps.tics(), played);
    Ok(())
}

#[test]
fn what_is_shown_and_found_is_reported(rt: HostRuntime) -> Result<(), Fail> {
    expect_session(
        &rt,
        rt.alloc(),
        b"put 50 0 0 0\nshow\nshow sector 2\nshow keys\nshow health\nbrute 1\nrange all forward 0 9\nwant x > 55\ngo\nshow\nput 0 0 0 1\nshow keys\nbrute 1\ngo",
        None,
        b"tic 1 x 50 y 0 z 0 momx 0 momy 0 momz 0 angle 0 rng 0\nsector 2 floor 0 ceiling 8388608 light 160\nkeys 0\nhealth 100 armour 25 type 1 suit 2 guard 3 react 4\nfound 6\nturns 17\ntic 2 x 56 y 0 z 0 momx 0 momy 0 momz 0 angle 0 rng 0\nhalt tic 3 attack\nnone\nturns 4\n",
        3,
        21,
    )
}

#[test]
fn the_first_refusal_ends_a_session(rt: HostRuntime) -> Result<(), Fail> {
    expect_session(
        &rt,
        rt.alloc(),
        b"\nshow\nseek 1\ncut",
        Some(SessionFault::Edit(3, EditFault::Place(0))),
        b"tic 0 x 0 y 0 z 0 momx 0 momy 0 momz 0 angle 0 rng 0\n",
        0,
        0,
    )?;
    expect_session(
        &rt,
        rt.alloc(),
        b"put 1 0 0 0\nrepeat 999999\nbrute 1\ngo",
        Some(SessionFault::Edit(4, EditFault::TooLong)),
        b"",
        1_000_000,
        0,
    )
}
