// The system's words for what failed.
use std::alloc::{AllocError, Global};
use std::io::Error;

// `cannot VERB NAME: REASON`, or no text where there is no memory for it.
pub(crate) fn failure_of(alloc: Global, verb: &str, name: &str, error: &Error) -> String {
    match text_of(alloc, verb, name, error) {
        Ok(text) => text,
        Err(_) => String::new(alloc),
    }
}

fn text_of(alloc: Global, verb: &str, name: &str, error: &Error) -> Result<String, AllocError> {
    let reason = format!(in alloc; "{error}")?;
    let words = without_number(reason.as_str());
    format!(in alloc; "cannot {verb} {name}: {words}")
}

// An error's words end in its number, which tells a user nothing.
fn without_number(reason: &str) -> &str {
    match reason.split_once(" (os error") {
        Some((words, _)) => words,
        None => reason,
    }
}
