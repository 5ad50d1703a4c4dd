//! Galleries, by their command and by their files.
use crate::over::{BUILD, NONE, ran_over, ran_session};
use doom_edge::NoGate;
use gallery_gen::gallery;
use std::alloc::Global;
use std::process::Abort;
use std::test::Fail;
use std::thread::Threads;

/// The number's word, and the first line.
const FIRST_LINES: [(&str, &[u8]); 3] = [
    ("0", b"gen 0 rooms 4 tics 600\n"),
    ("007", b"gen 7 rooms 6 tics 800\n"),
    ("4294967295", b"gen 4294967295 rooms 4 tics 600\n"),
];

/// Words that are no number of a gallery.
const MISUSES: [&str; 5] = ["", "-1", "4294967296", "00000000000", "1x"];

#[test]
fn a_gallery_is_told(rt: HostRuntime) -> Result<(), Fail> {
    let alloc = rt.alloc();
    for (number, line) in FIRST_LINES {
        let left = ran_over(&rt, alloc, &["gen", number], &[], NONE)?;
        assert_eq!(&rt; left.status.number(), 0);
        assert!(&rt; left.note.bytes().starts_with(line), "{line:?}");
    }
    for number in MISUSES {
        let left = ran_over(&rt, alloc, &["gen", number], &[], NONE)?;
        assert_eq!(&rt; left.status.number(), 2);
    }
    Ok(())
}

/// What a script over the gallery of number 0 reports, the demo that it leaves, and the tics that were played.
fn session(
    rt: &(impl Abort + Threads + Sync),
    alloc: Global,
    demo: Option<&[u8]>,
    script: &[u8],
) -> Result<(Vec<u8>, Vec<u8>, u64), Fail> {
    let made = gallery(alloc, 0)?;
    let demo = match demo {
        Some(bytes) => bytes.to_vec(alloc)?,
        None => made.demo.to_vec(alloc)?,
    };
    let left = ran_session(
        rt,
        &NoGate,
        alloc,
        &BUILD,
        &made.wad,
        &made.tables,
        &demo,
        script,
        b"",
        NONE,
    )?;
    assert_eq!(rt; left.status.number(), 0);
    let out = left.shelf.file("out.lmp").unwrap_or(&[]);
    Ok((
        left.note.bytes().to_vec(alloc)?,
        out.to_vec(alloc)?,
        left.tics,
    ))
}

#[test]
fn a_gallery_is_told_twice_alike(rt: HostRuntime) -> Result<(), Fail> {
    let alloc = rt.alloc();
    let first = ran_over(&rt, alloc, &["gen", "0"], &[], NONE)?;
    let second = ran_over(&rt, alloc, &["gen", "0"], &[], NONE)?;
    assert!(&rt; first.note.bytes() == second.note.bytes());
    Ok(())
}

#[test]
fn a_gallery_that_was_edited_plays_as_one_made_so(rt: HostRuntime) -> Result<(), Fail> {
    let alloc = rt.alloc();
    let edited: &[u8] = b"seek 600\nshow\nseek 10\nput 0 0 0 0\nseek 600\nshow\n";
    let (report, demo, _) = session(&rt, alloc, None, edited)?;
    let (fresh, _, _) = session(&rt, alloc, Some(&demo), b"seek 600\nshow\n")?;
    assert!(&rt; report.ends_with(&fresh));
    assert!(&rt; !fresh.is_empty() && fresh.len() < report.len());
    Ok(())
}

#[test]
fn a_tic_before_the_last_is_played_from_a_kept_world(rt: HostRuntime) -> Result<(), Fail> {
    let script: &[u8] = b"seek 600\nshow\nseek 599\nshow\n";
    let (_, _, tics) = session(&rt, rt.alloc(), None, script)?;
    assert_eq!(&rt; tics, 687);
    Ok(())
}
