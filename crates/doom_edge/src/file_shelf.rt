// Real files. What they hold is told to nobody: this is the trusted edge.
ghost use Rattle.std.specs.Prelude.{◌≡◌, ◌≤◌, None, OnOk, vec_len};

use crate::counts::add_fault;
use crate::interrupts::read_some;
use crate::reason::failure_of;
use crate::save::save;
use crate::save_file::SaveFile;
use crate::shelf::{PutFault, Shelf, TakeFault};
use std::io::{Error, ErrorKind};
use std::marker::Model;
use std::random::RandomSource;
use std::rt::Files;
use std::{fs, io};

// How many bytes are read at a time.
const READ_LEN: usize = 16384;

/// The files of the system, by their paths. A name of a file that isn't UTF-8 can't be named.
#[derive(Drop)]
pub struct FileShelf<R> {
    files: R,
    take_faults: u64,
    put_faults: u64,
    has_put: bool,
    failure: String,
}

impl<R> Model for FileShelf<R> {
    ghost use Rattle.doom_edge.specs.FileShelf.{Faults};

    ghost Value = { Faults };

    ghost view = { λ shelf. record { takes = shelf.take_faults; puts = shelf.put_faults } };
}

impl<R: Files + AllocGlobal> FileShelf<R> {
    /// The shelf of the runtime's files.
    pub fn new(files: R) -> FileShelf<R>
        ensures { result ≡ record { takes = 0; puts = 0 } }
    {
        let failure = String::new(files.alloc());
        FileShelf {
            files,
            take_faults: 0,
            put_faults: 0,
            has_put: false,
            failure,
        }
    }
}

impl<R> FileShelf<R> {
    /// What failed last, as `cannot read NAME: REASON` with the system's reason; empty where nothing did, or where there
    /// was no memory for it.
    pub fn failure(&self) -> &str {
        self.failure.as_str()
    }

    /// Whether a file was put.
    pub fn has_put(&self) -> bool {
        self.has_put
    }
}

impl<R: Files + AllocGlobal + RandomSource> Shelf for FileShelf<R>
where
    R::File: SaveFile,
{
    ghost holds = { λ _. None };

    ghost take_faults = { λ shelf. shelf.takes };

    ghost put_faults = { λ shelf. shelf.puts };

    ghost sure = { λ _. ⊥ };

    fn take(&mut self, name: &str, most: usize, into: &mut Vec<u8>) -> Result<(), TakeFault> {
        match read_file(&self.files, name, most, into) {
            Ok(()) => Ok(()),
            Err(error) if is_memory(&error) => Err(TakeFault::Memory),
            Err(error) => {
                self.take_faults = add_fault(self.take_faults);
                self.failure = failure_of(self.files.alloc(), "read", name, &error);
                Err(TakeFault::Failed)
            }
        }
    }

    fn put(&mut self, name: &str, bytes: &[u8]) -> Result<(), PutFault> {
        match save(&self.files, name, bytes) {
            Ok(()) => {
                self.has_put = true;
                Ok(())
            }
            Err(error) if is_memory(&error) => Err(PutFault::Memory),
            Err(error) => {
                self.put_faults = add_fault(self.put_faults);
                self.failure = failure_of(self.files.alloc(), "write", name, &error);
                Err(PutFault::Failed)
            }
        }
    }
}

fn is_memory(error: &Error) -> bool {
    error.kind() == ErrorKind::OutOfMemory
}

// Puts the first `most` bytes of a file in place of what was in `into`.
fn read_file<R: Files>(files: &R, name: &str, most: usize, into: &mut Vec<u8>) -> io::Result<()>
    ensures { OnOk result (vec_len into.new ≤ most) }
{
    let mut file = fs::open(files, name)?;
    into.clear();
    for _ in 0..u64::MAX {
        let mut buffer = [0; READ_LEN];
        let room = READ_LEN.min(most - into.len());
        let len = read_some(&mut file, &mut buffer[..room])?;
        if len == 0 {
            return Ok(());
        }
        into.extend_from_slice(&buffer[..len])?;
    }
    Err(Error::from(ErrorKind::Other))
}
