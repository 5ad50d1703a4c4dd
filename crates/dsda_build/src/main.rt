//! The program: its words, the real files and the real output, handed to the top call. What went wrong is said on
//! standard error.
#![tactic(auto)]

mod progress;
mod tell;

use crate::progress::Progress;
use crate::tell::{USAGE, VERSION, explain, print};
use doom_edge::{FileShelf, OutSink, Steps};
use dsda_cli::{Status, Words, run};
use std::process::ExitCode;
use std::rt::Env;
use std::thread::Threads;
use std::{env, io};

/// The words after the program's name. One that isn't UTF-8 makes them no command line.
fn words_of<R: Env + AllocGlobal>(rt: &R) -> Result<Words, Status> {
    let mut words = Words::new(rt.alloc());
    for word in env::args(rt).map_err(status_of)?.skip(1) {
        words.push(word.as_str()).map_err(|_| Status::Memory)?;
    }
    Ok(words)
}

/// The status of a run whose words could not be had.
fn status_of(error: io::Error) -> Status {
    match error.kind() {
        io::ErrorKind::OutOfMemory => Status::Memory,
        _ => Status::Usage,
    }
}

/// The text that the words ask for in place of a command.
fn asked_text(words: &Words) -> Option<&'static str> {
    if words.len() != 1 {
        return None;
    }
    match words.word(0) {
        "--help" | "-h" => Some(USAGE),
        "--version" => Some(VERSION),
        _ => None,
    }
}

/// Prints a text that was asked for.
fn answer(rt: &HostRuntime, text: &str) -> Status {
    match print(rt, text) {
        Ok(()) => Status::Done,
        Err(_) => Status::NoteFault,
    }
}

/// Carries out the words over the real files and the real output, with the searches' workers on threads.
fn carry_out(rt: &HostRuntime, threads: &(impl Threads + Sync), words: &Words) -> Status {
    let mut shelf = FileShelf::new(rt);
    let mut note = OutSink::new(rt);
    let mut steps = Steps::new();
    let status = run(
        rt.alloc(),
        threads,
        words,
        &mut shelf,
        &mut note,
        &Progress::new(rt),
        &mut steps,
    );
    let unwritten = note.failure(rt.alloc(), "the report");
    let failure = match status {
        Status::NoteFault => unwritten.as_str(),
        _ => shelf.failure(),
    };
    explain(rt, &status, failure, shelf.has_put());
    status
}

/// The status of the program's words.
fn status(rt: &HostRuntime, threads: &(impl Threads + Sync)) -> Status {
    match words_of(rt) {
        Ok(words) => match asked_text(&words) {
            Some(text) => answer(rt, text),
            None => carry_out(rt, threads, &words),
        },
        Err(status) => {
            explain(rt, &status, "", false);
            status
        }
    }
}

fn main(rt: HostRuntime) -> ExitCode {
    ExitCode::from(status(&rt, &rt).number())
}
