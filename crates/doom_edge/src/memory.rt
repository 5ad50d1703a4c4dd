// Want of memory, where nothing else can go wrong.
use std::alloc::{AllocError, AllocFailed};
use thiserror::Error;

/// No memory was to be had. No clause ties this answer to a refused growth: it may always come, and the
/// contract of the call says what stands after it.
#[derive(Clone, Copy, Debug, PartialEq, Eq, Error)]
#[error("out of memory")]
pub struct Memory;

impl From<AllocError> for Memory {
    fn from(_: AllocError) -> Self {
        Memory
    }
}

impl<T: Drop> From<AllocFailed<T>> for Memory {
    fn from(_: AllocFailed<T>) -> Self {
        Memory
    }
}
