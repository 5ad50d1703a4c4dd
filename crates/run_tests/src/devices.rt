//! Devices that fail: each take, each put and each push of each command, and the ones after its last.
use crate::maps::{Map, no_tics, tables, wad_of};
use crate::over::{BUILD, Failing, NONE, SIM, ran_session};
use doom_edge::NoGate;
use sample_inputs::HEADER;
use std::alloc::Global;
use std::process::Abort;
use std::test::Fail;
use std::thread::Threads;

/// The call that fails, by its number among the calls of its kind.
#[derive(Clone, Copy)]
enum Call {
    Take(u64),
    Put(u64),
    Push(u64),
}

/// How much stands of the text that is pushed where nothing fails.
#[derive(Clone, Copy)]
enum Part {
    Nothing,
    Half,
    Whole,
}

/// The call that fails, the status, whether OUT is held, and what stands of the text.
type Rows<'a> = &'a [(Call, u8, bool, Part)];

/// What a run came to.
#[derive(Drop)]
struct Outcome {
    status: u8,
    held: bool,
    text: Vec<u8>,
}

/// Words, a demo and a script.
#[derive(Clone, Copy)]
struct Input<'a> {
    words: &'a [&'a str],
    demo: &'a [u8],
    script: &'a [u8],
}

/// A number on its own.
fn alone(number: u64) -> &'static [u64] {
    match number {
        0 => &[0],
        1 => &[1],
        2 => &[2],
        3 => &[3],
        4 => &[4],
        _ => &[5],
    }
}

fn failing(call: Call) -> Failing {
    match call {
        Call::Take(number) => Failing {
            takes: alone(number),
            ..NONE
        },
        Call::Put(number) => Failing {
            puts: alone(number),
            ..NONE
        },
        Call::Push(number) => Failing {
            pushes: alone(number),
            ..NONE
        },
    }
}

/// That much of a text; the half is rounded down.
fn part_of(text: &[u8], part: Part) -> &[u8] {
    match part {
        Part::Nothing => &[],
        Part::Half => text.get(..text.len() / 2).unwrap_or(&[]),
        Part::Whole => text,
    }
}

/// Runs the words over the room, the sample tables, the demo, the script, and an order of two hands.
fn came(
    rt: &(impl Threads + Sync),
    alloc: Global,
    input: Input<'_>,
    failing: Failing,
) -> Result<Outcome, Fail> {
    let wad = wad_of(alloc, Map::Room)?;
    let tables = tables(alloc)?;
    let left = ran_session(
        rt,
        &NoGate,
        alloc,
        input.words,
        &wad,
        &tables,
        input.demo,
        input.script,
        b"0 1",
        failing,
    )?;
    Ok(Outcome {
        status: left.status.number(),
        held: left.shelf.file("out.lmp").is_some(),
        text: left.note.bytes().to_vec(alloc)?,
    })
}

/// Asserts that the run ends so where each of these calls fails.
fn expect_ends(
    rt: &(impl Abort + Threads + Sync),
    alloc: Global,
    input: Input<'_>,
    rows: Rows<'_>,
) -> Result<(), Fail> {
    let whole = came(rt, alloc, input, NONE)?;
    for (call, status, held, part) in rows {
        let left = came(rt, alloc, input, failing(*call))?;
        assert_eq!(rt; left.status, *status);
        assert_eq!(rt; left.held, *held);
        assert_eq!(rt; left.text.as_slice(), part_of(&whole.text, *part));
    }
    Ok(())
}

const EDIT: [&str; 4] = ["edit", "in.lmp", "script", "out.lmp"];

const LEVEL: [&str; 4] = ["level", "maps.wad", "play.ptab", "in.lmp"];

/// A tic, and the world after it.
const SHOWN: &[u8] = b"put 50 0 0 0\nshow\n";

#[test]
fn an_edit_ends_as_its_devices_do(rt: HostRuntime) -> Result<(), Fail> {
    let demo = no_tics(rt.alloc())?;
    let input = Input {
        words: &EDIT,
        demo: &demo,
        script: b"put 50 0 0 0\n",
    };
    expect_ends(
        &rt,
        rt.alloc(),
        input,
        &[
            (Call::Take(0), 3, false, Part::Nothing),
            (Call::Take(1), 3, false, Part::Nothing),
            (Call::Take(2), 0, true, Part::Whole),
            (Call::Put(0), 4, false, Part::Nothing),
            (Call::Put(1), 0, true, Part::Whole),
            // An empty report is not pushed.
            (Call::Push(0), 0, true, Part::Whole),
        ],
    )
}

#[test]
fn a_level_ends_as_its_devices_do(rt: HostRuntime) -> Result<(), Fail> {
    let demo = no_tics(rt.alloc())?;
    let input = Input {
        words: &LEVEL,
        demo: &demo,
        script: b"",
    };
    expect_ends(
        &rt,
        rt.alloc(),
        input,
        &[
            (Call::Take(0), 3, false, Part::Nothing),
            (Call::Take(1), 3, false, Part::Nothing),
            (Call::Take(2), 3, false, Part::Nothing),
            (Call::Take(3), 0, false, Part::Whole),
            (Call::Put(0), 0, false, Part::Whole),
            (Call::Push(0), 5, false, Part::Half),
            (Call::Push(1), 0, false, Part::Whole),
        ],
    )
}

#[test]
fn a_build_ends_as_its_devices_do(rt: HostRuntime) -> Result<(), Fail> {
    let demo = no_tics(rt.alloc())?;
    let input = Input {
        words: &BUILD,
        demo: &demo,
        script: SHOWN,
    };
    expect_ends(
        &rt,
        rt.alloc(),
        input,
        &[
            (Call::Take(0), 3, false, Part::Nothing),
            (Call::Take(1), 3, false, Part::Nothing),
            (Call::Take(2), 3, false, Part::Nothing),
            (Call::Take(3), 3, false, Part::Nothing),
            (Call::Take(4), 0, true, Part::Whole),
            (Call::Put(0), 4, false, Part::Nothing),
            (Call::Put(1), 0, true, Part::Whole),
            (Call::Push(0), 5, true, Part::Half),
            (Call::Push(1), 0, true, Part::Whole),
        ],
    )
}

#[test]
fn a_session_under_an_order_ends_as_its_devices_do(rt: HostRuntime) -> Result<(), Fail> {
    let demo = no_tics(rt.alloc())?;
    let input = Input {
        words: &SIM,
        demo: &demo,
        script: b"brute 2\nrange all forward 0 2\nwant x = 8000\ngo\n",
    };
    expect_ends(
        &rt,
        rt.alloc(),
        input,
        &[
            (Call::Take(0), 3, false, Part::Nothing),
            (Call::Take(1), 3, false, Part::Nothing),
            (Call::Take(2), 3, false, Part::Nothing),
            (Call::Take(3), 3, false, Part::Nothing),
            (Call::Take(4), 3, false, Part::Nothing),
            (Call::Take(5), 0, true, Part::Whole),
            (Call::Put(0), 4, false, Part::Nothing),
            (Call::Put(1), 0, true, Part::Whole),
            (Call::Push(0), 5, true, Part::Half),
            (Call::Push(1), 0, true, Part::Whole),
        ],
    )
}

#[test]
fn a_gallery_takes_and_puts_nothing(rt: HostRuntime) -> Result<(), Fail> {
    let input = Input {
        words: &["gen", "0"],
        demo: b"",
        script: b"",
    };
    expect_ends(
        &rt,
        rt.alloc(),
        input,
        &[
            (Call::Take(0), 0, false, Part::Whole),
            (Call::Put(0), 0, false, Part::Whole),
            (Call::Push(0), 5, false, Part::Half),
            (Call::Push(1), 0, false, Part::Whole),
        ],
    )
}

/// What becomes of a refusal: it is pushed in place of the report, and nothing is put.
const REFUSED: [(Call, u8, bool, Part); 5] = [
    (Call::Take(0), 3, false, Part::Nothing),
    (Call::Take(1), 3, false, Part::Nothing),
    (Call::Put(0), 1, false, Part::Whole),
    (Call::Push(0), 5, false, Part::Half),
    (Call::Push(1), 1, false, Part::Whole),
];

// The line of this refusal has 24 bytes, of which 12 stand.
#[test]
fn a_refusal_ends_as_its_devices_do(rt: HostRuntime) -> Result<(), Fail> {
    let alloc = rt.alloc();
    let mut cut = HEADER.to_vec(alloc)?;
    cut.extend_from_slice(&[50, 0])?;
    for words in [&EDIT[..], &LEVEL[..], &BUILD[..], &SIM[..]] {
        let input = Input {
            words,
            demo: &cut,
            script: b"",
        };
        let line = came(&rt, alloc, input, NONE)?;
        assert_eq!(&rt;
            line.text.as_slice(),
            b"refused: demo cut at 15\n".as_slice()
        );
        expect_ends(&rt, alloc, input, &REFUSED)?;
    }
    Ok(())
}

#[test]
fn other_words_touch_no_device(rt: HostRuntime) -> Result<(), Fail> {
    let alloc = rt.alloc();
    let demo = no_tics(alloc)?;
    for words in [&EDIT[..3], &LEVEL[..1], &BUILD[..5], &SIM[..6], &["gen"]] {
        let input = Input {
            words,
            demo: &demo,
            script: SHOWN,
        };
        expect_ends(
            &rt,
            alloc,
            input,
            &[
                (Call::Take(0), 2, false, Part::Nothing),
                (Call::Put(0), 2, false, Part::Nothing),
                (Call::Push(0), 2, false, Part::Nothing),
            ],
        )?;
    }
    Ok(())
}
