//! What follows from the definitions and the contracts, for a reader: each law is a function whose clause is the law.
ghost use Rattle.std.specs.Prelude.{◌≡◌, ℕ, List, Some};
ghost use Rattle.doom_edge.specs.Devices.{Files};
ghost use Rattle.doom_edge.specs.MemShelf.{files_of};
ghost use Rattle.dsda_cli.specs.Meaning.{Outcome, Means};
ghost use Rattle.dsda_cli.specs.Ending.{Answers};

use crate::program::run;
use crate::status::Status;
use crate::words::Words;
use doom_edge::{Gate, MemShelf, Steps, SureSink};
use lmp_codec::laws::one_verdict;
use std::alloc::Global;
use std::thread::Threads;
use wad_lumps::one_answer;

/// A command line comes to one outcome over the files that it names.
pub fn one_meaning()
    ensures { (words : List (List ℕ)) (files : Files) (a b : Outcome) → Means words files a → Means words files b → a ≡ b }
{
    one_answer();
    one_verdict();
}

/// Over a new shelf in memory, no call of which is to fail, and a sink that never fails, a run ends as the words and
/// the files come to, or for want of memory.
pub fn run_in_memory<G: Gate + Sync, R: Threads + Sync>(
    alloc: Global,
    rt: &R,
    words: &Words,
    files: Vec<(String, Vec<u8>)>,
    gate: &G,
    steps: &mut Steps,
) -> Status
    ensures { Answers words.now (Some (files_of files.items)) result }
{
    let mut shelf = MemShelf::new(files, Vec::new(alloc), Vec::new(alloc));
    let mut note = SureSink::new(alloc);
    run(alloc, rt, words, &mut shelf, &mut note, gate, steps)
}
