use crate::rows::{expect, numbers};
use brute_ranges::{Range, Space, TicRanges};
use brute_targets::{Op, Want, Wants};
use build_script::{Command, Kind, Script, ScriptFault, read_script};
use game_trait::Quantity;
use lmp_codec::Tic;
use std::alloc::{AllocError, Global};
use std::process::Abort;
use std::test::Fail;

/// Why a text is refused as the script of a long or a short demo, with or without worlds, if it is.
fn refusal(alloc: Global, text: &[u8], worlds: bool, long: bool) -> Option<ScriptFault> {
    match read_script(alloc, text, worlds, long) {
        Ok(_) => None,
        Err(fault) => Some(fault),
    }
}

/// The line and the reason at the head of a row: a letter for the reason, and the line's number.
fn fault_of(row: &[u8]) -> Option<ScriptFault> {
    let kind = match row.first() {
        Some(b'W') => Kind::Word,
        Some(b'N') => Kind::Number,
        Some(b'R') => Kind::Range,
        Some(b'M') => Kind::Missing,
        Some(b'S') => Kind::Space,
        _ => return None,
    };
    let digit = row.get(1).copied().unwrap_or(0);
    Some(ScriptFault::Line(u32::from(digit.wrapping_sub(b'0')), kind))
}

/// Asserts of each row, up to a semicolon, that its text is read, or refused at this line for this reason.
fn expect_refusals(rt: &impl Abort, alloc: Global, worlds: bool, long: bool, rows: &str) {
    for row in rows.split(';') {
        let text = row.as_bytes().get(3..).unwrap_or(&[]);
        let fault = refusal(alloc, text, worlds, long);
        assert_eq!(rt; fault, fault_of(row.as_bytes()), "{row:?}");
    }
}

/// A command's number in the list of commands, and what it holds.
fn summary(command: &Command) -> [i64; 5] {
    match command {
        Command::Seek(place) => [1, i64::from(*place), 0, 0, 0],
        Command::Put(tic) => with_tic(2, tic),
        Command::Insert(tic) => with_tic(3, tic),
        Command::Delete => [4, 0, 0, 0, 0],
        Command::Cut => [5, 0, 0, 0, 0],
        Command::Repeat(count) => [6, i64::from(*count), 0, 0, 0],
        _ => [0; 5],
    }
}

fn with_tic(number: i64, tic: &Tic) -> [i64; 5] {
    [
        number,
        i64::from(tic.forward),
        i64::from(tic.side),
        i64::from(tic.turn),
        i64::from(tic.buttons),
    ]
}

/// The lines of a script's commands, and what these are.
fn summaries(alloc: Global, script: &Script) -> Result<Vec<i64>, AllocError> {
    let mut numbers = Vec::new(alloc);
    for i in 0..script.len() {
        numbers.push(i64::from(script.line(i)))?;
        numbers.extend_from_slice(&summary(script.command(i)))?;
    }
    Ok(numbers)
}

/// Asserts that a text is read as these commands, each with its line.
fn expect_commands(
    rt: &impl Abort,
    alloc: Global,
    text: &[u8],
    worlds: bool,
    long: bool,
    rows: &str,
) -> Result<(), Fail> {
    let script = read_script(alloc, text, worlds, long)?;
    let found = summaries(alloc, &script)?;
    let wanted = numbers(alloc, rows)?;
    expect(rt, rows, &found, &wanted);
    Ok(())
}

/// A command as it is printed for debugging.
fn text_of(alloc: Global, command: &Command) -> Result<String, Fail> {
    Ok(format!(in alloc; "{command:?}")?)
}

/// Asserts that a script has this command, at this line.
fn expect_command(
    rt: &impl Abort,
    alloc: Global,
    script: &Script,
    (place, line): (usize, u32),
    command: &Command,
) -> Result<(), Fail> {
    assert!(rt; place < script.len());
    assert_eq!(rt; script.line(place), line);
    let found = text_of(alloc, script.command(place))?;
    assert_eq!(rt; found, text_of(alloc, command)?);
    Ok(())
}

/// Numbers at their bounds.
const BOUNDS: &str = "\
OK seek 0;\
R1 seek -1;\
OK seek 1000000;\
R1 seek 1000001;\
OK put -127 0 0 0;\
R1 put -128 0 0 0;\
OK put 127 0 0 0;\
R1 put 128 0 0 0;\
OK put 0 -128 0 0;\
R1 put 0 -129 0 0;\
OK put 0 127 0 0;\
R1 put 0 128 0 0;\
OK insert 0 0 -128 0;\
R1 insert 0 0 -129 0;\
OK insert 0 0 255 0;\
R1 insert 0 0 256 0;\
OK insert 0 0 0 0;\
R1 insert 0 0 0 -1;\
OK insert 0 0 0 255;\
R1 insert 0 0 0 256;\
OK repeat 1;\
R1 repeat 0;\
OK repeat 1000000;\
R1 repeat 1000001;\
OK seek 000000000000000007;\
R1 seek 999999999999999999";

#[test]
fn numbers_are_bounded_on_both_sides(rt: HostRuntime) {
    expect_refusals(&rt, rt.alloc(), false, false, BOUNDS);
}

/// Of each text the first fault.
const FAULTS: &str = "\
W1 jump 3;\
W1 show;\
W1 brute 1;\
W1 range all use 0 1;\
W1 want exit;\
W1 go;\
W1 Cut;\
W1 cut 1;\
W1 delete x;\
W1 put 1 0 0 0 0;\
W1 put 1 0 0 0 # no comment;\
W1 cut\r;\
W1 cut\r\r\n;\
W1 cut\x0b;\
N1 put x 0 0 0;\
N1 put +1 0 0 0;\
N1 put - 0 0 0;\
N1 put --1 0 0 0;\
N1 put 1- 0 0 0;\
N1 put 0x1 0 0 0;\
N1 put \u{e9} 0 0 0;\
N1 seek 1234567890123456789;\
N1 seek -0000000000000000000;\
N1 put x 200;\
R1 put 200 x;\
M1 put 1;\
M1 seek;\
M1 repeat;\
M5 cut\n\n# rest\n \t \r\nseek\njump\n";

#[test]
fn the_first_fault_is_named(rt: HostRuntime) {
    expect_refusals(&rt, rt.alloc(), false, false, FAULTS);
    let fault = refusal(rt.alloc(), b"\xff\xfe", false, false);
    assert_eq!(rt; fault, Some(ScriptFault::Line(1, Kind::Word)));
}

#[test]
fn commands_keep_their_lines(rt: HostRuntime) -> Result<(), Fail> {
    let alloc = rt.alloc();
    let text = b"put 1 2 3 4\nput 5 6 7 8\n\nseek 1\n  # cut\ncut";
    let rows = "1 2 1 2 768 4  2 2 5 6 1792 8  4 1 1 0 0 0  6 5 0 0 0 0";
    expect_commands(&rt, alloc, text, false, false, rows)?;
    let text = b"put -0 0 0 0\r\n\trepeat\t2\t\r\n\r\n#\r\ninsert 2 -1 -128 3 \r\ndelete\r\n";
    let rows = "1 2 0 0 0 0  2 6 2 0 0 0  5 3 2 -1 32768 3  6 4 0 0 0 0";
    expect_commands(&rt, alloc, text, true, false, rows)?;
    expect_commands(&rt, alloc, b"", false, false, "")?;
    expect_commands(&rt, alloc, b"\n#\n", false, false, "")?;
    let text = b"put 0 0 1 0\nput 0 0 -1 0\ninsert 0 0 -32768 0";
    let rows = "1 2 0 0 1 0  2 2 0 0 65535 0  3 3 0 0 32768 0";
    expect_commands(&rt, alloc, text, false, true, rows)
}

/// Turns of a long demo at their bounds.
const LONG_TURNS: &str = "\
OK put 0 0 -32768 0;\
R1 put 0 0 -32769 0;\
OK insert 0 0 65535 0;\
R1 insert 0 0 65536 0";

#[test]
fn a_long_demo_has_long_turns(rt: HostRuntime) {
    expect_refusals(&rt, rt.alloc(), false, true, LONG_TURNS);
}

/// Words of a session with worlds.
const SESSIONS: &str = "\
OK show\nshow sector 65535\nshow keys\nshow health;\
M1 show sector;\
N1 show sector x;\
R1 show sector 65536;\
W1 show sector 0 0;\
W1 show keys 1;\
W1 show doors;\
M1 range all use 0 1;\
M1 want x;\
M1 go;\
M1 brute;\
N1 brute 5u;\
R1 brute 0;\
R1 brute 36;\
W1 brute 1 1;\
OK brute 35\n\n# rest\ngo;\
M1 brute 1\n\n# rest;\
M2 cut\nbrute 1\nwant exit;\
M3 brute 1\ngo\ngo";

#[test]
fn a_session_with_worlds_has_more_words(rt: HostRuntime) {
    expect_refusals(&rt, rt.alloc(), true, false, SESSIONS);
}

/// Lines of a search.
const SEARCHES: &str = "\
W2 brute 2\nseek 0;\
W2 brute 2\nbrute 2;\
W2 brute 2\nshow;\
W2 brute 2\ngo on;\
M2 brute 2\nrange;\
N2 brute 2\nrange none use 0 0;\
R2 brute 2\nrange 0 use 0 0;\
R2 brute 2\nrange 3 use 0 0;\
W2 brute 2\nrange all jump 0 0;\
R2 brute 2\nrange 2 side -129 x;\
OK brute 2\nrange 2 side -128 127\ngo;\
R2 brute 2\nrange all use 1 0 0;\
W2 brute 2\nrange all use 0 1 0;\
OK brute 2\nrange all turn 0 255\ngo;\
R2 brute 2\nrange all turn -1 255;\
M2 brute 2\nwant;\
W2 brute 2\nwant w = 0;\
W2 brute 2\nwant x == 0;\
N2 brute 2\nwant x = u;\
N2 brute 2\nwant x = 5uu;\
OK brute 2\nwant x = -32768u\nwant x = 65535u\ngo;\
R2 brute 2\nwant x = -32769u;\
R2 brute 2\nwant x = 999999999999999999u;\
OK brute 2\nwant x = 4294967295\ngo;\
R2 brute 2\nwant x = 4294967296;\
W2 brute 2\nwant x = 0 0;\
R2 brute 2\nwant line 65536;\
W2 brute 2\nwant exit 1;\
OK brute 5\nrange all turn 0 255\ngo;\
S5 brute 6\nrange all turn 0 255\nrange 1 turn 0 0\nrange 2 use 0 1\ngo;\
W3 brute 6\nrange all turn 0 255\ngo on";

#[test]
fn a_search_knows_its_own_words_alone(rt: HostRuntime) {
    expect_refusals(&rt, rt.alloc(), true, false, SEARCHES);
}

/// A search with so many targets, and this line after them.
fn with_targets(alloc: Global, count: u32, last: &[u8]) -> Result<Vec<u8>, Fail> {
    let mut text = Vec::from_slice(alloc, b"brute 1\n")?;
    for _ in 0..count {
        text.extend_from_slice(b"want exit\n")?;
    }
    text.extend_from_slice(last)?;
    Ok(text)
}

#[test]
fn a_search_has_sixteen_targets(rt: HostRuntime) -> Result<(), Fail> {
    for (last, kind) in [
        (b"go".as_slice(), None),
        (b"want exit".as_slice(), Some(Kind::Range)),
        (b"want exit 0".as_slice(), Some(Kind::Word)),
    ] {
        let text = with_targets(rt.alloc(), 16, last)?;
        let fault = kind.map(|kind| ScriptFault::Line(18, kind));
        assert_eq!(rt; refusal(rt.alloc(), &text, true, false), fault);
    }
    Ok(())
}

#[test]
fn a_search_is_its_targets_and_one_command(rt: HostRuntime) -> Result<(), Fail> {
    let alloc = rt.alloc();
    let text =
        b"brute 2\nrange all turn -3 7\nrange 2 use 0 1\nwant health >= 2u\nwant line 7\n\ngo";
    let script = read_script(alloc, text, true, true)?;
    assert_eq!(rt; script.len(), 3);
    let health = Want::Reading(Quantity::Health, Op::GreaterEqual, 131_072);
    expect_command(&rt, alloc, &script, (0, 4), &Command::Want(health))?;
    expect_command(&rt, alloc, &script, (1, 5), &Command::Want(Want::Line(7)))?;
    let go = searched(alloc, health)?;
    expect_command(&rt, alloc, &script, (2, 7), &go)
}

/// The search over two tics, both turned and the second used, for this target and line 7.
fn searched(alloc: Global, want: Want) -> Result<Command, Fail> {
    let rest = Range { low: 0, high: 0 };
    let turned = TicRanges {
        forward: rest,
        side: rest,
        turn: Range { low: -3, high: 7 },
        using: rest,
    };
    let used = TicRanges {
        using: Range { low: 0, high: 1 },
        ..turned
    };
    let space = Space::new(alloc, Vec::from_slice(alloc, &[turned, used])?, true)?;
    let wants = Wants::new(Vec::from_slice(alloc, &[want, Want::Line(7)])?);
    Ok(Command::Go(space, wants))
}
