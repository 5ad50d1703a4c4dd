//! The program's commands, each over a shelf of files and a sink for the report.
//!
//! `edit DEMO SCRIPT OUT` reads a demo and a script, carries the script's commands out on the demo's tics, and puts the
//! demo that they leave. `build WAD TABLES DEMO SCRIPT OUT` does so on the level that the demo plays, where a script
//! also shows worlds and searches for the first sequence of tics that meets targets; `sim` does the same on one thread,
//! in the order of a file. `level WAD TABLES DEMO` starts the level that a demo plays, and reports its name, how much
//! there is of each kind, and where the player starts. `gen N` goes on as `build` with files that it makes out of a
//! number.
//!
//! A command line comes to one outcome over the files that it names; `run` ends as that, or by a device's fault or want
//! of memory.
#![tactic(auto)]

mod begins;
mod command;
mod deliver;
mod edits;
mod fault;
mod galleries;
mod inputs;
pub mod laws;
mod level;
mod names;
mod order;
mod product;
mod program;
mod sessions;
mod status;
mod take;
mod text;
mod words;
mod work;

pub use fault::{InputFault, MayLackMemory, Refused};
pub use order::{OrderFault, read_order};
pub use program::run;
pub use status::Status;
pub use text::refusal_text;
pub use words::Words;
