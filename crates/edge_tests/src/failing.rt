// The runtime's files, of which one step of a save fails.
use doom_edge::SaveFile;
use std::alloc::{Alloc, Allocator, Global};
use std::fs::{File, Files, Metadata, OpenFile, OpenOptions};
use std::io;
use std::io::{Error, ErrorKind, Read, Seek, SeekFrom, Write};
use std::path::PathBuf;
use std::random::RandomSource;

#[derive(Clone, Copy, Debug, PartialEq, Eq)]
pub enum Step {
    OpenFolder,
    Create,
    // The first piece is written, and then the disk is full.
    Write,
    // A write takes no byte.
    Stall,
    // The owner and the group can't be set.
    Give,
    Permit,
    Sync,
    // The system knows of no sync.
    Unsupported,
    // A signal interrupts each sync.
    Interrupt,
    // The temporary file's name leads to another file.
    Exchange,
    Rename,
    Nothing,
}

#[derive(Drop)]
pub struct FailingFiles<'a> {
    pub files: &'a HostRuntime,
    pub fails: Step,
}

fn broken() -> io::Error {
    io::Error::from(ErrorKind::Other)
}

impl Alloc for FailingFiles<'_> {
    type A = Global;

    fn alloc(&self) -> Global {
        self.files.alloc()
    }
}

impl RandomSource for FailingFiles<'_> {
    fn fill_bytes(&self, buf: &mut [u8]) -> io::Result<()> {
        self.files.fill_bytes(buf)
    }
}

impl Files for FailingFiles<'_> {
    type File = FailingFile;

    type Dir = <HostRuntime as Files>::Dir;

    fn open_file(&self, how: &OpenOptions, path: &str) -> io::Result<FailingFile> {
        let fails = match self.fails {
            Step::Create => how.asks_create_new(),
            Step::OpenFolder => how.asks_read(),
            _ => false,
        };
        if fails {
            return Err(broken());
        }
        let file = self.files.open_file(how, path)?;
        Ok(FailingFile {
            file,
            fails: self.fails,
            written: 0,
        })
    }

    fn open_dir(&self, path: &str) -> io::Result<Self::Dir> {
        self.files.open_dir(path)
    }

    fn metadata(&self, path: &str) -> io::Result<Metadata> {
        self.files.metadata(path)
    }

    fn symlink_metadata(&self, path: &str) -> io::Result<Metadata> {
        let exchanged = self.fails == Step::Exchange && path.contains(".dsda_build-");
        self.files
            .symlink_metadata(if exchanged { "/" } else { path })
    }

    fn copy(&self, from: &str, to: &str) -> io::Result<u64> {
        self.files.copy(from, to)
    }

    fn rename(&self, from: &str, to: &str) -> io::Result<()> {
        if self.fails == Step::Rename {
            return Err(broken());
        }
        self.files.rename(from, to)
    }

    fn remove_file(&self, path: &str) -> io::Result<()> {
        self.files.remove_file(path)
    }

    fn create_dir(&self, path: &str) -> io::Result<()> {
        self.files.create_dir(path)
    }

    fn remove_dir(&self, path: &str) -> io::Result<()> {
        self.files.remove_dir(path)
    }

    fn remove_dir_all<B: Allocator>(&self, alloc: B, path: &str) -> io::Result<()> {
        self.files.remove_dir_all(alloc, path)
    }

    fn read_link<B: Allocator>(&self, alloc: B, path: &str) -> io::Result<PathBuf<B>> {
        self.files.read_link(alloc, path)
    }
}

#[derive(Drop)]
pub struct FailingFile {
    file: File,
    fails: Step,
    written: usize,
}

impl Read for FailingFile {
    fn read(&mut self, buf: &mut [u8]) -> io::Result<usize> {
        self.file.read(buf)
    }
}

impl Write for FailingFile {
    // A byte at a time.
    fn write(&mut self, buf: &[u8]) -> io::Result<usize> {
        match self.fails {
            Step::Write if self.written > 0 => Err(broken()),
            Step::Stall if self.written > 0 => Ok(0),
            _ => {
                self.written = 1;
                let len = buf.len().min(1);
                self.file.write(&buf[..len])
            }
        }
    }

    fn flush(&mut self) -> io::Result<()> {
        self.file.flush()
    }
}

impl Seek for FailingFile {
    fn seek(&mut self, to: SeekFrom) -> io::Result<u64> {
        self.file.seek(to)
    }
}

impl OpenFile for FailingFile {
    fn metadata(&self) -> io::Result<Metadata> {
        self.file.metadata()
    }

    fn set_len(&self, size: u64) -> io::Result<()> {
        self.file.set_len(size)
    }

    fn sync_all(&self) -> io::Result<()> {
        self.file.sync_all()
    }

    fn sync_data(&self) -> io::Result<()> {
        self.file.sync_data()
    }
}

impl SaveFile for FailingFile {
    fn sync(&self) -> io::Result<()> {
        match self.fails {
            Step::Sync => Err(broken()),
            Step::Unsupported => Err(Error::from(ErrorKind::InvalidInput)),
            Step::Interrupt => Err(Error::from(ErrorKind::Interrupted)),
            _ => self.file.sync(),
        }
    }

    fn permit(&self, mode: u32) -> io::Result<()> {
        if self.fails == Step::Permit {
            return Err(broken());
        }
        self.file.permit(mode)
    }

    fn give(&self, owner: u32) -> io::Result<()> {
        if self.fails == Step::Give {
            return Err(broken());
        }
        self.file.give(owner)
    }

    fn share(&self, group: u32) -> io::Result<()> {
        if self.fails == Step::Give {
            return Err(broken());
        }
        self.file.share(group)
    }
}
