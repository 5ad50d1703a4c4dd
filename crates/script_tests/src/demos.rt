use crate::rows::{at, numbers};
use lmp_codec::{DemoFault, Tic, read_demo, write_demo};
use std::alloc::{AllocError, Global};
use std::process::Abort;
use std::test::Fail;

/// The headers of a demo of version 109 and of one of version 111, on the first map of the first episode.
const HEADER: [u8; 13] = [0x6d, 2, 1, 1, 0, 0, 0, 1, 0, 1, 0, 0, 0];

const LONG_HEADER: [u8; 13] = [0x6f, 2, 1, 1, 0, 0, 0, 1, 0, 1, 0, 0, 0];

/// What ends a demo, and 200 bytes behind it.
const FOOTER: &[u8] = b"\x80\
    **************************************************\
    **************************************************\
    **************************************************\
    **************************************************";

/// A text of this header, so many tics that move ahead by 50 and turn, and this rest.
fn text(alloc: Global, header: &[u8], tics: usize, rest: &[u8]) -> Result<Vec<u8>, AllocError> {
    let tic = match header.first() {
        Some(0x6f) => [0x32, 0, 0x34, 0x12, 0].as_slice(),
        _ => [0x32, 0, 0x12, 0].as_slice(),
    };
    let mut bytes = Vec::from_slice(alloc, header)?;
    for _ in 0..tics {
        bytes.extend_from_slice(tic)?;
    }
    bytes.extend_from_slice(rest)?;
    Ok(bytes)
}

/// What is written of what is read, or the fault.
fn rewritten(alloc: Global, bytes: &[u8]) -> Result<Vec<u8>, DemoFault> {
    let demo = read_demo(alloc, bytes)?;
    match write_demo(alloc, &demo.header, demo.tics.as_list()) {
        Ok(bytes) => Ok(bytes),
        Err(_) => Err(DemoFault::Memory),
    }
}

/// Asserts that a demo of so many tics with this rest is written with these bytes of the rest alone.
fn expect_kept(
    rt: &impl Abort,
    alloc: Global,
    header: &[u8],
    tics: usize,
    (rest, kept): (&[u8], &[u8]),
) -> Result<(), Fail> {
    let written = rewritten(alloc, &text(alloc, header, tics, rest)?)?;
    let wanted = text(alloc, header, tics, kept)?;
    assert!(rt; written == wanted);
    Ok(())
}

#[test]
fn demos_are_written_as_they_are_read(rt: HostRuntime) -> Result<(), Fail> {
    let alloc = rt.alloc();
    let port = [0x6d, 3, 1, 7, 0, 0, 1, 1, 0, 1, 0, 0, 0];
    let long = b"\x81\x80\x80\x80\x80\x80";
    expect_kept(&rt, alloc, &HEADER, 0, (b"\x80", b"\x80"))?;
    expect_kept(&rt, alloc, &HEADER, 1, (b"\x80\nPWADER", b"\x80"))?;
    expect_kept(&rt, alloc, &port, 3_000, (FOOTER, b"\x80"))?;
    expect_kept(&rt, alloc, &LONG_HEADER, 2, (long, long))?;
    expect_kept(&rt, alloc, &LONG_HEADER, 1, (b"\x80\x80", b"\x80"))
}

/// The fault of a text of this header, so many tics and this rest, if it has one.
fn fault_of(
    alloc: Global,
    header: &[u8],
    tics: usize,
    rest: &[u8],
) -> Result<Option<DemoFault>, AllocError> {
    let bytes = text(alloc, header, tics, rest)?;
    Ok(read_demo(alloc, &bytes).err())
}

/// A demo with this header is read and written with a million tics, and with no more.
fn assert_limit(rt: &impl Abort, alloc: Global, header: &[u8], cut: usize) -> Result<(), Fail> {
    expect_kept(rt, alloc, header, 1_000_000, (b"\x80", b"\x80"))?;
    let longer = fault_of(alloc, header, 1_000_000, &[0x81, 0x80])?;
    assert_eq!(rt; longer, Some(DemoFault::DemoLong));
    let fault = fault_of(alloc, header, 1_000_000, &[])?;
    assert_eq!(rt; fault, Some(DemoFault::DemoCut(cut)));
    Ok(())
}

#[test]
fn a_demo_has_at_most_a_million_tics(rt: HostRuntime) -> Result<(), Fail> {
    assert_limit(&rt, rt.alloc(), &HEADER, 4_000_013)
}

#[test]
fn a_long_demo_has_as_many(rt: HostRuntime) -> Result<(), Fail> {
    assert_limit(&rt, rt.alloc(), &LONG_HEADER, 5_000_013)
}

/// A place in the header, and a byte that is wrong there.
const WRONG: &str = "\
0 110
0 0
1 5
2 0
2 10
3 0
3 100
4 1
7 0
8 1
9 0
10 1
11 1
12 1";

/// The header with a byte in a place, and the fault that it is.
fn wrong_header(row: &[i64]) -> ([u8; 13], DemoFault) {
    let place = u8::try_from(at(row, 0)).unwrap_or(u8::MAX);
    let byte = u8::try_from(at(row, 1)).unwrap_or(u8::MAX);
    let mut header = HEADER;
    if let Some(there) = header.get_mut(usize::from(place)) {
        *there = byte;
    }
    match place {
        0 => (header, DemoFault::DemoVersion(byte)),
        _ => (header, DemoFault::DemoHead(place)),
    }
}

#[test]
fn the_first_fault_from_the_left_is_answered(rt: HostRuntime) -> Result<(), Fail> {
    for line in WRONG.lines() {
        let (header, fault) = wrong_header(&numbers(rt.alloc(), line)?);
        let found = fault_of(rt.alloc(), &header, 1, &[])?;
        assert_eq!(rt; found, Some(fault));
        let found = fault_of(rt.alloc(), &header, 1, &[0x80])?;
        assert_eq!(rt; found, Some(fault));
    }
    Ok(())
}

/// Asserts that this rest of a demo without tics is cut at this length.
fn expect_cut(
    rt: &impl Abort,
    alloc: Global,
    header: &[u8],
    rest: &[u8],
    len: usize,
) -> Result<(), Fail> {
    let found = fault_of(alloc, header, 0, rest)?;
    assert_eq!(rt; found, Some(DemoFault::DemoCut(len)));
    Ok(())
}

#[test]
fn cut_demos_are_known(rt: HostRuntime) -> Result<(), Fail> {
    let alloc = rt.alloc();
    expect_cut(&rt, alloc, &[], &[], 0)?;
    expect_cut(&rt, alloc, &HEADER, &[], 13)?;
    expect_cut(&rt, alloc, &HEADER, &[0x32], 14)?;
    expect_cut(&rt, alloc, &HEADER, &[0x32, 0], 15)?;
    expect_cut(&rt, alloc, &HEADER, &[0x32, 0, 0x80], 16)?;
    expect_cut(&rt, alloc, &HEADER, &[0x32, 0, 0, 0x80], 17)?;
    expect_cut(&rt, alloc, &LONG_HEADER, &[], 13)?;
    expect_cut(&rt, alloc, &LONG_HEADER, &[0x32, 0, 0, 0], 17)?;
    expect_cut(&rt, alloc, &LONG_HEADER, &[0x32, 0, 0, 0x80, 0x80], 18)
}

#[test]
fn a_demo_shows_its_header_and_tics(rt: HostRuntime) -> Result<(), Fail> {
    let header = [0x6d, 4, 9, 99, 0, 1, 1, 2, 0, 3, 0, 0, 0];
    let bytes = text(rt.alloc(), &header, 0, &[0x81, 0xff, 3, 2, 0x80])?;
    let demo = read_demo(rt.alloc(), &bytes)?;
    let told = [
        demo.header.skill(),
        demo.header.episode(),
        demo.header.map(),
    ];
    assert_eq!(rt; told, [4, 9, 99]);
    assert_eq!(rt; demo.header.bytes(), header.as_slice());
    assert!(rt; !demo.header.long());
    let tics = demo.tics.into_list();
    assert_eq!(rt; tics.len(), 1);
    assert_eq!(rt; tics.first().copied(), Tic::new(-127, -1, 0x300, 2));
    Ok(())
}

#[test]
fn a_long_demo_shows_its_tics(rt: HostRuntime) -> Result<(), Fail> {
    assert_eq!(rt; Tic::new(-128, 0, 0, 0), None);
    let bytes = text(rt.alloc(), &LONG_HEADER, 1, &[0x80])?;
    let demo = read_demo(rt.alloc(), &bytes)?;
    assert!(rt; demo.header.long());
    let first = demo.tics.as_list().first().copied();
    assert_eq!(rt; first, Tic::new(0x32, 0, 0x1234, 0));
    Ok(())
}
