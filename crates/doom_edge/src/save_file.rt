// What a save asks of the file that it makes.
use std::fs::{File, OpenFile, Permissions};
use std::io;
use std::io::Write;
use std::os::fd::AsFd;
use std::os::unix::fs::{PermissionsExt, fchown};

/// An open file, as a save needs it. Each of these is one call of the system, which a signal may interrupt; none goes
/// by the file's name.
pub trait SaveFile: Write + OpenFile {
    /// Waits until the file is stored.
    fn sync(&self) -> io::Result<()>;

    /// Sets the bits of rights.
    fn permit(&self, mode: u32) -> io::Result<()>;

    /// Sets the owner.
    fn give(&self, owner: u32) -> io::Result<()>;

    /// Sets the group.
    fn share(&self, group: u32) -> io::Result<()>;
}

impl SaveFile for File {
    fn sync(&self) -> io::Result<()> {
        self.sync_all()
    }

    fn permit(&self, mode: u32) -> io::Result<()> {
        self.set_permissions(Permissions::from_mode(mode))
    }

    fn give(&self, owner: u32) -> io::Result<()> {
        fchown(self.as_fd(), Some(owner), None)
    }

    fn share(&self, group: u32) -> io::Result<()> {
        fchown(self.as_fd(), None, Some(group))
    }
}
