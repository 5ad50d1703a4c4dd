//! Small files, made by hand.

use std::alloc::{AllocError, Global};
use std::test::Fail;
use wad_lumps::{Wad, WadFault};

/// An entry of this name, whose lump is empty.
fn push_entry(bytes: &mut Vec<u8>, name: &str) -> Result<(), AllocError> {
    bytes.extend_from_slice(&[0; 8])?;
    for i in 0..8 {
        bytes.push(name.as_bytes().get(i).copied().unwrap_or(0))?;
    }
    Ok(())
}

/// A file whose directory stands behind its head and has entries of these names, which spaces part,
/// each with an empty lump.
fn file(alloc: Global, names: &str) -> Result<Vec<u8>, AllocError> {
    let mut bytes = Vec::from_slice(alloc, b"PWAD\0\0\0\0\x0c\0\0\0")?;
    let mut count = 0u8;
    for name in names.split(' ') {
        push_entry(&mut bytes, name)?;
        count = count.wrapping_add(1);
    }
    if let Some(place) = bytes.get_mut(4) {
        *place = count;
    }
    Ok(bytes)
}

/// The label and the two forms of a map.
fn found(
    alloc: Global,
    bytes: Vec<u8>,
    episode: u8,
    map: u8,
) -> Result<(u32, bool, bool), WadFault> {
    let wad = Wad::read(bytes)?;
    let found = wad.map(alloc, episode.clamp(1, 9), map.clamp(1, 99))?;
    Ok((found.label, found.episode_form, found.other_form))
}

#[test]
fn labels(rt: HostRuntime) -> Result<(), Fail> {
    let none = Err(WadFault::NoMap);
    let cases = [
        ("E1M1 1 2 3 4 5 6 7 8 9 10", 1, 1, Ok((0, true, false))),
        ("MAP01 1 2 3 4 5 6 7 8 9 10", 1, 1, Ok((0, false, false))),
        (
            "A MAP31 1 2 3 4 5 6 7 8 9 10 B",
            9,
            31,
            Ok((1, false, false)),
        ),
        // The last entry of a name wins.
        (
            "E1M1 A E1M1 1 2 3 4 5 6 7 8 9 10",
            1,
            1,
            Ok((2, true, false)),
        ),
        // Two digits go before an episode.
        (
            "MAP01 E1M1 1 2 3 4 5 6 7 8 9 10",
            1,
            1,
            Ok((0, false, false)),
        ),
        // A map above 9 has no label with an episode, and all eight bytes of a name count.
        ("E1M: 1 2 3 4 5 6 7 8 9 10", 1, 10, none),
        ("E2M1 1 2 3 4 5 6 7 8 9 10", 1, 1, none),
        ("E1M1\0\0\0x 1 2 3 4 5 6 7 8 9 10", 1, 1, none),
        ("e1m1 1 2 3 4 5 6 7 8 9 10", 1, 1, none),
        ("E1M1", 1, 1, Err(WadFault::LumpRange(1))),
        ("E1M1 1 2 3 4 5 6 7 8 9", 1, 1, Err(WadFault::LumpRange(10))),
        ("E1M1 TEXTMAP 2 3 4 5 6 7 8 9 10", 1, 1, Ok((0, true, true))),
        (
            "E1M1 1 2 3 4 5 6 7 8 9 10 BEHAVIOR",
            1,
            1,
            Ok((0, true, true)),
        ),
        (
            "E1M1 1 2 3 4 5 6 7 8 9 BEHAVIOR 11",
            1,
            1,
            Ok((0, true, false)),
        ),
    ];
    for (names, episode, map, want) in cases {
        let bytes = file(rt.alloc(), names)?;
        assert_eq!(rt; found(rt.alloc(), bytes, episode, map), want, "{names:?}");
    }
    Ok(())
}

/// A file with the label of the first map and its ten lumps, and another number at a place.
fn changed(alloc: Global, at: usize, to: i32) -> Result<Vec<u8>, AllocError> {
    let mut bytes = file(alloc, "E1M1 1 2 3 4 5 6 7 8 9 10")?;
    for (i, byte) in to.to_le_bytes().iter().enumerate() {
        if let Some(place) = bytes.get_mut(at.wrapping_add(i)) {
            *place = *byte;
        }
    }
    Ok(bytes)
}

#[test]
fn numbers(rt: HostRuntime) -> Result<(), Fail> {
    // The file has 188 bytes: twelve of head and eleven entries, the label's first. The place of
    // lump e stands at 12 + 16 * e, its length four bytes on.
    let head = Err(WadFault::WadHead);
    let directory = Err(WadFault::WadDir);
    let cases = [
        (0, 0x44_41_57_49, Ok((0, true, false))),
        (0, 0x44_41_57_4A, head),
        (4, -1, head),
        (4, i32::MIN, head),
        (4, 12, directory),
        (4, 10, Err(WadFault::LumpRange(10))),
        (4, 0, Err(WadFault::NoMap)),
        (8, -1, head),
        (8, 13, directory),
        (8, 28, directory),
        // The label's own lump is not judged.
        (12, -1, Ok((0, true, false))),
        (28, 188, Ok((0, true, false))),
        (28, 189, Err(WadFault::LumpRange(1))),
        (28, -1, Err(WadFault::LumpRange(1))),
        (32, 188, Ok((0, true, false))),
        (32, 189, Err(WadFault::LumpRange(1))),
        (32, -1, Err(WadFault::LumpRange(1))),
        (172, 189, Err(WadFault::LumpRange(10))),
    ];
    for (at, to, want) in cases {
        let bytes = changed(rt.alloc(), at, to)?;
        assert_eq!(rt; found(rt.alloc(), bytes, 1, 1), want, "{to} at {at}");
    }
    Ok(())
}
