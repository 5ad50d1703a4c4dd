// A shelf in memory, for tests: which of its calls fail is known.
ghost use Rattle.std.specs.Prelude.{◌≡◌, ◌≤◌, true, false, Option, Some, option_map, take, IfSome, OnOk, OnErr, IsErrOf, IfErr, is_none};
ghost use Rattle.std.specs.FinMap as map;
ghost use Rattle.doom_edge.specs.Counts.{Rose};
ghost use Rattle.doom_edge.specs.Calls.{fails};
ghost use Rattle.doom_edge.specs.MemShelf.{take_fails, after_take, after_put, after_put_of, IsSure, files_of};

use crate::calls::Calls;
use crate::shelf::{PutFault, Shelf, TakeFault};
use std::alloc::AllocError;
use std::marker::Model;

/// A shelf that keeps its files in memory. Takes and puts are each numbered from 0, and the calls with
/// listed numbers fail.
#[derive(Drop)]
pub struct MemShelf {
    // Where a name stands twice, the first entry counts.
    files: Vec<(String, Vec<u8>)>,
    takes: Calls,
    puts: Calls,
}

impl Model for MemShelf {
    ghost use Rattle.doom_edge.specs.MemShelf.{Shelved, shelved_code, files_of};

    ghost Value = { Shelved };

    ghost coded = { shelved_code };

    ghost view = { λ shelf. record { files = files_of shelf.files.items; takes = shelf.takes; puts = shelf.puts } };
}

impl MemShelf {
    /// A shelf with these files, whose takes and puts with listed numbers fail. Where a name stands twice,
    /// the first entry counts.
    pub fn new(files: Vec<(String, Vec<u8>)>, fail_takes: Vec<u64>, fail_puts: Vec<u64>) -> MemShelf
        ensures { result ≡ record {
          files = files_of files.items;
          takes = record { failing = fail_takes.items; made = 0; faults = 0 };
          puts = record { failing = fail_puts.items; made = 0; faults = 0 };
        } }
    {
        MemShelf {
            files,
            takes: Calls::new(fail_takes),
            puts: Calls::new(fail_puts),
        }
    }

    /// The bytes under a name, or `None` where it isn't held.
    pub fn file(&self, name: &str) -> Option<&[u8]>
        ensures { option_map (λ bytes. bytes.now) result ≡ map.get self.now.files name.now }
    {
        find(&self.files, name)
    }
}

// The bytes of the first entry with this name.
fn find<'a>(files: &'a [(String, Vec<u8>)], name: &str) -> Option<&'a [u8]>
    ensures { option_map (λ bytes. bytes.now) result ≡ map.get (files_of files.now) name.now }
{
    for (held, bytes) in files {
        if name == held.as_str() {
            return Some(bytes.as_slice());
        }
    }
    None
}

// Puts the first `most` bytes in place of what was in `into`.
fn copy_front(bytes: &[u8], most: usize, into: &mut Vec<u8>) -> Result<(), AllocError>
    ensures { OnOk result (into.new.items ≡ take most bytes.now) }
{
    into.clear();
    into.extend_from_slice(&bytes[..most.min(bytes.len())])?;
    Ok(())
}

impl Shelf for MemShelf {
    ghost holds = { λ shelf. Some shelf.files };

    ghost take_faults = { λ shelf. shelf.takes.faults };

    ghost put_faults = { λ shelf. shelf.puts.faults };

    ghost sure = { IsSure };

    fn take(&mut self, name: &str, most: usize, into: &mut Vec<u8>) -> Result<(), TakeFault>
        ensures ok { OnOk result (take_fails self.old name.now ≡ false) }
        ensures failed { IsErrOf result TakeFault.Failed → take_fails self.old name.now ≡ true }
        ensures memory { IsErrOf result TakeFault.Memory → take_fails self.old name.now ≡ false }
        ensures read { OnOk result (option_map (take most) (map.get self.old.files name.now) ≡ Some into.new.items) }
        ensures after { self.new ≡ after_take self.old name.now }
        ensures cause { IsErrOf result TakeFault.Failed → Rose self.old.takes.faults self.new.takes.faults }
        ensures take_faults { self.old.takes.faults ≤ self.new.takes.faults }
    {
        match find(&self.files, name) {
            Some(bytes) if !self.takes.fails() => {
                self.takes.count(false);
                copy_front(bytes, most, into)?;
                Ok(())
            }
            _ => {
                self.takes.count(true);
                Err(TakeFault::Failed)
            }
        }
    }

    fn put(&mut self, name: &str, bytes: &[u8]) -> Result<(), PutFault>
        ensures ok { OnOk result (fails self.old.puts ≡ false) }
        ensures failed { IsErrOf result PutFault.Failed → fails self.old.puts ≡ true }
        ensures memory { IsErrOf result PutFault.Memory → fails self.old.puts ≡ false }
        ensures put { OnOk result (self.new ≡ after_put_of self.old name.now bytes.now) }
        ensures err { OnErr result (self.new ≡ after_put self.old) }
        ensures cause { IsErrOf result PutFault.Failed → Rose self.old.puts.faults self.new.puts.faults }
        ensures put_faults { self.old.puts.faults ≤ self.new.puts.faults }
    {
        let failed = self.puts.fails();
        self.puts.count(failed);
        if failed {
            return Err(PutFault::Failed);
        }
        let alloc = *self.files.allocator();
        let name = String::from_str(alloc, name)?;
        let bytes = Vec::from_slice(alloc, bytes)?;
        self.files.insert(0, (name, bytes))?;
        Ok(())
    }
}
