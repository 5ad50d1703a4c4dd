//! The script of a session: the commands of a text, or the first fault in it.
//!
//! A line of a script holds one command, and its words are separated by spaces and tabs. All sessions know `seek T`,
//! `put F S T B`, `insert F S T B`, `delete`, `cut` and `repeat N`. Those with worlds know `show`, `show sector N`,
//! `show keys` and `show health` too, and searches: `brute N` opens one of N tics, `range I AXIS A B`, `want Q OP V`,
//! `want line L` and `want exit` say what is tried and what is wanted, and `go` carries it out. A number is a minus or
//! none, and 1 to 18 decimal digits.
#![tactic(auto)]

mod commands;
mod fault;
mod judge;
mod names;
mod numbers;
mod reading;
mod search;
mod steps;
mod text;
mod within;

pub use commands::{Command, Entry, Script};
pub use fault::{Kind, ScriptFault};
pub use numbers::decimal_number;
pub use reading::read_script;
