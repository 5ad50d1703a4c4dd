//! `edit` over files in memory.
use crate::over::{ALL, Failing, Left, NONE, ran_over};
use sample_inputs::HEADER;
use std::alloc::{AllocError, Global};
use std::process::Abort;
use std::test::Fail;
use std::thread::Threads;

/// The words of an edit.
const EDIT: [&str; 4] = ["edit", "in.lmp", "script", "out.lmp"];

/// A demo without tics.
const EMPTY: &[u8] = b"\x6d\x02\x01\x01\x00\x00\x00\x01\x00\x01\x00\x00\x00\x80";

/// The header of a demo of version 111.
const LONG_HEADER: [u8; 13] = [111, 2, 1, 1, 0, 0, 0, 1, 0, 1, 0, 0, 0];

/// The header and these bytes behind it.
fn with_header(alloc: Global, header: &[u8], behind: &[u8]) -> Result<Vec<u8>, AllocError> {
    let mut bytes = header.to_vec(alloc)?;
    bytes.extend_from_slice(behind)?;
    Ok(bytes)
}

/// Runs the words over a demo and a script.
fn ran(
    rt: &(impl Threads + Sync),
    alloc: Global,
    words: &[&str],
    demo: &[u8],
    script: &[u8],
    failing: Failing,
) -> Result<Left, Fail> {
    ran_over(
        rt,
        alloc,
        words,
        &[("in.lmp", demo), ("script", script)],
        failing,
    )
}

/// A table of scripts: what stands behind the demo's header, the script, and what stands behind the new demo's header.
type Edits<'a> = &'a [(&'a [u8], &'a [u8], &'a [u8])];

/// Asserts that each script leaves these tics of these behind this header, and that there is nothing to report.
fn expect_edits(
    rt: &(impl Abort + Threads + Sync),
    alloc: Global,
    header: &[u8],
    rows: Edits<'_>,
) -> Result<(), Fail> {
    for (behind, script, left_behind) in rows {
        let demo = with_header(alloc, header, behind)?;
        let out = with_header(alloc, header, left_behind)?;
        let left = ran(rt, alloc, &EDIT, &demo, script, NONE)?;
        assert_eq!(rt; left.status.number(), 0, "{script:?}");
        assert_eq!(rt; left.note.bytes(), b"".as_slice(), "{script:?}");
        assert!(rt;
            left.shelf.file("out.lmp") == Some(out.as_slice()),
            "{script:?}"
        );
    }
    Ok(())
}

/// Asserts that each demo with its script is refused with this line, and that nothing is put.
fn expect_refusals(
    rt: &(impl Abort + Threads + Sync),
    alloc: Global,
    rows: &[(&[u8], &[u8], &[u8])],
) -> Result<(), Fail> {
    for (demo, script, line) in rows {
        let left = ran(rt, alloc, &EDIT, demo, script, NONE)?;
        assert_eq!(rt; left.status.number(), 1, "{line:?}");
        assert_eq!(rt; left.note.bytes(), *line);
        assert!(rt; left.shelf.file("out.lmp").is_none(), "{line:?}");
    }
    Ok(())
}

/// Asserts that these words, with devices that always fail, are no command line.
fn expect_usage(
    rt: &(impl Abort + Threads + Sync),
    alloc: Global,
    rows: &[&[&str]],
) -> Result<(), Fail> {
    for words in rows {
        let left = ran(rt, alloc, words, b"", b"", ALL)?;
        assert_eq!(rt; left.status.number(), 2, "{words:?}");
        assert_eq!(rt; left.note.bytes(), b"".as_slice());
        assert!(rt; left.shelf.file("out.lmp").is_none());
    }
    Ok(())
}

#[test]
fn a_demo_is_put_as_its_script_leaves_it(rt: HostRuntime) -> Result<(), Fail> {
    expect_edits(
        &rt,
        rt.alloc(),
        &HEADER,
        &[
            (b"\x80", b"", b"\x80"),
            (b"\x80", b"# nothing\n\n \t\r\n", b"\x80"),
            (
                b"\x32\x00\x00\x00\x80\nPWADER",
                b"",
                b"\x32\x00\x00\x00\x80",
            ),
            (
                b"\x80",
                b"put 1 2 3 4\nput 5 6 7 8\nseek 1\ncut",
                b"\x01\x02\x03\x04\x80",
            ),
            (
                b"\x80",
                b"put 1 0 0 0\nrepeat 2\nseek 1\ninsert 2 -1 3 2\ndelete\n",
                b"\x01\x00\x00\x00\x02\xff\x03\x02\x01\x00\x00\x00\x80",
            ),
            (
                b"\x80",
                b"put\t-0 0  0 0\r\n\tput 0 0 -1 255\r\n",
                b"\x00\x00\x00\x00\x00\x00\xff\xff\x80",
            ),
            (
                b"\x07\x07\x07\x07\x80",
                b"put -127 -128 -128 0",
                b"\x81\x80\x80\x00\x80",
            ),
            (
                b"\x07\x07\x07\x07\x80",
                b"seek 1\nput 127 127 255 0",
                b"\x07\x07\x07\x07\x7f\x7f\xff\x00\x80",
            ),
        ],
    )
}

#[test]
fn a_long_demo_is_put_with_its_turns(rt: HostRuntime) -> Result<(), Fail> {
    expect_edits(
        &rt,
        rt.alloc(),
        &LONG_HEADER,
        &[
            (b"\x80", b"", b"\x80"),
            (b"\x80", b"put 0 0 1 0", b"\x00\x00\x01\x00\x00\x80"),
            (b"\x80", b"put 0 0 -1 0", b"\x00\x00\xff\xff\x00\x80"),
            (
                b"\x32\x00\x34\x12\x02\x80PWADER",
                b"seek 1\nrepeat 1\ninsert 0 0 65535 0",
                b"\x32\x00\x34\x12\x02\x32\x00\x34\x12\x02\x00\x00\xff\xff\x00\x80",
            ),
        ],
    )
}

#[test]
fn a_faulty_long_demo_or_its_script_is_refused(rt: HostRuntime) -> Result<(), Fail> {
    let alloc = rt.alloc();
    let cut = with_header(alloc, &LONG_HEADER, &[0x32, 0, 0, 0])?;
    let empty = with_header(alloc, &LONG_HEADER, &[0x80])?;
    expect_refusals(
        &rt,
        alloc,
        &[
            (&cut, b"", b"refused: demo cut at 17\n"),
            (&empty, b"put 0 0 65536 0", b"refused: line 1: range\n"),
            (&empty, b"put 0 0 -32769 0", b"refused: line 1: range\n"),
            (EMPTY, b"put 0 0 300 0", b"refused: line 1: range\n"),
            (b"\x70", b"", b"refused: demo version 112\n"),
        ],
    )
}

#[test]
fn a_faulty_demo_is_refused(rt: HostRuntime) -> Result<(), Fail> {
    expect_refusals(
        &rt,
        rt.alloc(),
        &[
            (b"", b"jump", b"refused: demo cut at 0\n"),
            (
                b"\x6d\x02\x01\x01\x00\x00\x00\x01\x00\x01\x00\x00\x00\x32\x00",
                b"",
                b"refused: demo cut at 15\n",
            ),
            (b"\x6e", b"", b"refused: demo version 110\n"),
            (b"\x6d\x05", b"", b"refused: demo head 1\n"),
            (
                b"\x6d\x02\x01\x01\x00\x00\x00\x01\x00\x01\x01",
                b"",
                b"refused: demo head 10\n",
            ),
        ],
    )
}

#[test]
fn a_faulty_line_is_refused(rt: HostRuntime) -> Result<(), Fail> {
    expect_refusals(
        &rt,
        rt.alloc(),
        &[
            (EMPTY, b"jump 3", b"refused: line 1: word\n"),
            (EMPTY, b"# no\n\nshow", b"refused: line 3: word\n"),
            (EMPTY, b"put x 0 0 0", b"refused: line 1: number\n"),
            (EMPTY, b"put 200 0 0 0", b"refused: line 1: range\n"),
            (EMPTY, b"put 1", b"refused: line 1: missing\n"),
            (EMPTY, b"put 1 0 0 0 0", b"refused: line 1: word\n"),
            (EMPTY, b"seek 1000001", b"refused: line 1: range\n"),
            (
                EMPTY,
                b"seek 1234567890123456789",
                b"refused: line 1: number\n",
            ),
            (EMPTY, b"seek 1\njump", b"refused: line 2: word\n"),
        ],
    )
}

#[test]
fn a_refused_edit_is_named_with_its_line(rt: HostRuntime) -> Result<(), Fail> {
    expect_refusals(
        &rt,
        rt.alloc(),
        &[
            (EMPTY, b"seek 1", b"refused: line 1: place 0\n"),
            (EMPTY, b"delete", b"refused: line 1: place 0\n"),
            (
                EMPTY,
                b"put 1 0 0 0\n\nseek 2",
                b"refused: line 3: place 1\n",
            ),
            (EMPTY, b"repeat 1", b"refused: line 1: before\n"),
            (
                EMPTY,
                b"put 1 0 0 0\nrepeat 1000000",
                b"refused: line 2: long\n",
            ),
            (
                EMPTY,
                b"put 1 0 0 0\nrepeat 999999\nput 1 0 0 0",
                b"refused: line 3: long\n",
            ),
            (
                EMPTY,
                b"put 1 0 0 0\nrepeat 999999\nseek 3\ninsert 1 0 0 0\nseek 9",
                b"refused: line 4: long\n",
            ),
        ],
    )
}

#[test]
fn a_file_above_its_limit_is_refused(rt: HostRuntime) -> Result<(), Fail> {
    let alloc = rt.alloc();
    let mut script = vec![in alloc; b'\n'; 1_048_576]?;
    let left = ran(&rt, alloc, &EDIT, EMPTY, &script, NONE)?;
    assert_eq!(rt; left.status.number(), 0);
    script.push(b'\n')?;
    let demo = vec![in alloc; 0u8; 16_777_217]?;
    expect_refusals(
        &rt,
        alloc,
        &[
            (b"", &script, b"refused: word 2 too large\n"),
            (&demo, &script, b"refused: word 1 too large\n"),
        ],
    )
}

#[test]
fn an_input_may_be_the_output(rt: HostRuntime) -> Result<(), Fail> {
    let alloc = rt.alloc();
    let demo = with_header(alloc, &HEADER, b"\x01\x02\x03\x04\x80rest")?;
    let words = ["edit", "in.lmp", "script", "in.lmp"];
    let left = ran(&rt, alloc, &words, &demo, b"insert 5 6 7 8", NONE)?;
    let out = with_header(alloc, &HEADER, b"\x05\x06\x07\x08\x01\x02\x03\x04\x80")?;
    assert_eq!(rt; left.status.number(), 0);
    assert!(rt; left.shelf.file("in.lmp") == Some(out.as_slice()));
    Ok(())
}

#[test]
fn a_missing_file_is_a_read_fault(rt: HostRuntime) -> Result<(), Fail> {
    let words = ["edit", "no.lmp", "script", "out.lmp"];
    let left = ran(&rt, rt.alloc(), &words, b"", b"", NONE)?;
    assert_eq!(rt; left.status.number(), 3);
    assert_eq!(rt; left.note.bytes(), b"".as_slice());
    Ok(())
}

#[test]
fn other_words_touch_nothing(rt: HostRuntime) -> Result<(), Fail> {
    expect_usage(
        &rt,
        rt.alloc(),
        &[
            &[],
            &["edit"],
            &["edit", "in.lmp", "script"],
            &["edit", "in.lmp", "script", "out.lmp", "more"],
            &["Edit", "in.lmp", "script", "out.lmp"],
            &["level", "maps.wad", "play.ptab"],
            &["level", "maps.wad", "play.ptab", "in.lmp", "more"],
            &["", "in.lmp", "script", "out.lmp"],
        ],
    )
}
