//! Runs over files in memory and a sink in memory.
use crate::maps::{Map, ended, tables, wad_of};
use doom_edge::{Gate, MemShelf, MemSink, NoGate, Steps};
use dsda_cli::{Status, Words, run};
use sample_inputs::HEADER;
use std::alloc::Global;
use std::process::Abort;
use std::test::Fail;
use std::thread::Threads;

/// The numbers of the calls that fail.
#[derive(Clone, Copy)]
pub struct Failing {
    pub takes: &'static [u64],
    pub puts: &'static [u64],
    pub pushes: &'static [u64],
}

pub const NONE: Failing = Failing {
    takes: &[],
    puts: &[],
    pushes: &[],
};

pub const ALL: Failing = Failing {
    takes: &[0],
    puts: &[0],
    pushes: &[0],
};

/// What a run left.
#[derive(Drop)]
pub struct Left {
    pub status: Status,
    pub shelf: MemShelf,
    pub note: MemSink,
    /// The tics that were played.
    pub tics: u64,
}

/// Runs the words over files in memory, each given by its name and its bytes.
pub fn ran_over(
    rt: &(impl Threads + Sync),
    alloc: Global,
    words: &[&str],
    files: &[(&str, &[u8])],
    failing: Failing,
) -> Result<Left, Fail> {
    ran_past(rt, &NoGate, alloc, words, files, failing)
}

/// The same, with a gate that workers pass.
pub fn ran_past(
    rt: &(impl Threads + Sync),
    gate: &(impl Gate + Sync),
    alloc: Global,
    words: &[&str],
    files: &[(&str, &[u8])],
    failing: Failing,
) -> Result<Left, Fail> {
    let mut list = Words::new(alloc);
    for word in words {
        list.push(word)?;
    }
    let mut held = Vec::new(alloc);
    for (name, bytes) in files {
        held.push((String::from_str(alloc, name)?, bytes.to_vec(alloc)?))?;
    }
    let mut shelf = MemShelf::new(
        held,
        failing.takes.to_vec(alloc)?,
        failing.puts.to_vec(alloc)?,
    );
    let mut note = MemSink::new(alloc, failing.pushes.to_vec(alloc)?);
    let mut steps = Steps::new();
    let status = run(alloc, rt, &list, &mut shelf, &mut note, gate, &mut steps);
    Ok(Left {
        status,
        shelf,
        note,
        tics: steps.tics(),
    })
}

/// Runs the words of a session over its files; `build` reads no order.
pub fn ran_session(
    rt: &(impl Threads + Sync),
    gate: &(impl Gate + Sync),
    alloc: Global,
    words: &[&str],
    wad: &[u8],
    tables: &[u8],
    demo: &[u8],
    script: &[u8],
    order: &[u8],
    failing: Failing,
) -> Result<Left, Fail> {
    let files = [
        ("maps.wad", wad),
        ("play.ptab", tables),
        ("in.lmp", demo),
        ("script", script),
        ("order", order),
    ];
    ran_past(rt, gate, alloc, words, &files, failing)
}

/// The words before what follows OUT.
pub const BUILD: [&str; 6] = [
    "build",
    "maps.wad",
    "play.ptab",
    "in.lmp",
    "script",
    "out.lmp",
];

/// The words of `sim`.
pub const SIM: [&str; 7] = [
    "sim",
    "maps.wad",
    "play.ptab",
    "in.lmp",
    "script",
    "out.lmp",
    "order",
];

/// A run over a map and the sample tables: the map, what stands behind the demo's header, the script, the report, and
/// what stands behind the new demo's header.
pub type Row<'a> = (Map, &'a [u8], &'a [u8], &'a [u8], &'a [u8]);

/// Asserts that the words come to that over the files of the row.
pub fn expect_row(
    rt: &(impl Abort + Threads + Sync),
    alloc: Global,
    words: &[&str],
    (map, behind, script, report, left_behind): Row<'_>,
) -> Result<(), Fail> {
    let wad = wad_of(alloc, map)?;
    let tables = tables(alloc)?;
    let demo = ended(alloc, &HEADER, behind)?;
    let left = ran_session(
        rt, &NoGate, alloc, words, &wad, &tables, &demo, script, b"", NONE,
    )?;
    let out = ended(alloc, &HEADER, left_behind)?;
    assert!(rt; left.note.bytes() == report, "{script:?}");
    assert_eq!(rt; left.status.number(), 0);
    assert!(rt;
        left.shelf.file("out.lmp") == Some(out.as_slice()),
        "{script:?}"
    );
    Ok(())
}
