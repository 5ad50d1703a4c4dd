// Saving a file so that nothing is lost and nothing is opened: whatever fails, and wherever the program is stopped, the
// file that stood there is whole, either the old one or the new one, and nobody has a right that he had not.
use crate::interrupts::{until_done, write_whole};
use crate::save_file::SaveFile;
use crate::target::{Target, target_of};
use std::fs::{Metadata, OpenFile, OpenOptions};
use std::io::{Error, ErrorKind};
use std::os::unix::fs::{MetadataExt, OpenOptionsExt};
use std::path::PathBuf;
use std::random::RandomSource;
use std::rt::Files;
use std::{fs, io};

// How often another name is tried where a temporary file's name is taken.
const MOST_NAMES: u32 = 100;

// How much of a file's name its temporary file shows: names of more than 255 bytes are refused by the system.
const MOST_SHOWN: usize = 100;

/// Saves these bytes under `name`. A regular file is replaced whole and at once, or left as it was: the bytes go to a
/// temporary file beside it, which is synced and renamed onto it. The file keeps its rights, its group and its owner
/// where the system lets it; else it gets fewer rights. One that may not be written is not replaced. A symbolic link is
/// followed. A device or a pipe is written through.
pub(crate) fn save<R: Files + AllocGlobal + RandomSource>(
    files: &R,
    name: &str,
    bytes: &[u8],
) -> io::Result<()>
where
    R::File: SaveFile,
{
    match target_of(files, name)? {
        Target::Device => write_through(files, name, bytes),
        Target::File(path) => {
            let before = writable(files, &path)?;
            put_beside(files, &path, Some(before), bytes)
        }
        Target::Free(path) => put_beside(files, &path, None, bytes),
    }
}

fn write_through<R: Files>(files: &R, name: &str, bytes: &[u8]) -> io::Result<()> {
    let mut file = OpenOptions::new().write(true).open(files, name)?;
    if file.metadata()?.is_file() {
        return Err(exchanged());
    }
    write_whole(&mut file, bytes).map_err(after_a_change)
}

// The regular file that stands there. One that may not be written is an error.
fn writable<R: Files>(files: &R, path: &PathBuf) -> io::Result<Metadata> {
    let file = OpenOptions::new().write(true).open(files, path)?;
    let found = file.metadata()?;
    if found.is_file() {
        Ok(found)
    } else {
        Err(exchanged())
    }
}

// Makes a file beside `path` and puts it in its place. Where that fails, the file is removed.
fn put_beside<R: Files + AllocGlobal + RandomSource>(
    files: &R,
    path: &PathBuf,
    before: Option<Metadata>,
    bytes: &[u8],
) -> io::Result<()>
where
    R::File: SaveFile,
{
    let folder = open_folder(files, path)?;
    let (temporary, mut file) = create_beside(files, path, before.is_some())?;
    let filled = fill(&mut file, before, bytes);
    let moved = filled.and_then(|()| move_onto(files, &temporary, &file, path));
    if moved.is_err() {
        let _ = remove(files, &temporary, &file);
        return moved;
    }
    match folder {
        Some(folder) => sync(&folder).map_err(after_a_change),
        None => Ok(()),
    }
}

// The folder of `path`, to be synced. One that may not be read can't be.
fn open_folder<R: Files + AllocGlobal>(files: &R, path: &PathBuf) -> io::Result<Option<R::File>> {
    let folder = path.with_file_name(files.alloc(), ".")?;
    match fs::open(files, &folder) {
        Ok(folder) => Ok(Some(folder)),
        Err(error) if error.kind() == ErrorKind::PermissionDenied => Ok(None),
        Err(error) => Err(error),
    }
}

// Makes a temporary file in the folder of `path`, under a name of this run's own. One that is to replace a file can be
// read by its owner alone until it gets that file's rights.
fn create_beside<R: Files + AllocGlobal + RandomSource>(
    files: &R,
    path: &PathBuf,
    private: bool,
) -> io::Result<(PathBuf, R::File)> {
    let mode = if private { 0o600 } else { 0o666 };
    for _ in 0..MOST_NAMES {
        let name = temporary_name(files, path)?;
        let temporary = path.with_file_name(files.alloc(), &name)?;
        let mut options = OpenOptions::new();
        options.write(true).create_new(true).mode(mode);
        match options.open(files, &temporary) {
            Ok(file) => return Ok((temporary, file)),
            Err(error) if error.kind() == ErrorKind::AlreadyExists => {}
            Err(error) => return Err(error),
        }
    }
    Err(Error::from(ErrorKind::AlreadyExists))
}

// `.OUT.dsda_build-..`, with a random number.
fn temporary_name<R: AllocGlobal + RandomSource>(files: &R, path: &PathBuf) -> io::Result<String> {
    let Some(name) = path.file_name() else {
        return Err(Error::from(ErrorKind::InvalidFilename));
    };
    let shown = (0..=MOST_SHOWN)
        .rev()
        .find_map(|len| name.get(..len.min(name.len())))
        .unwrap_or("");
    let mut number = [0; 8];
    files.fill_bytes(&mut number)?;
    let number = u64::from_le_bytes(number);
    Ok(format!(in files.alloc(); ".{shown}.dsda_build-{number:016x}")?)
}

// Gives a temporary file the bytes, and the rights of the file before, and waits until they are stored.
fn fill<F: SaveFile>(file: &mut F, before: Option<Metadata>, bytes: &[u8]) -> io::Result<()> {
    write_whole(file, bytes)?;
    if let Some(before) = before {
        give_rights(file, &before)?;
    }
    sync(file)
}

// Owner and group as before, each where the system lets it be, and then the rights.
fn give_rights<F: SaveFile>(file: &F, before: &Metadata) -> io::Result<()> {
    let made = file.metadata()?;
    if made.uid() != before.uid() {
        let _ = file.give(before.uid());
    }
    if made.gid() != before.gid() {
        let _ = file.share(before.gid());
    }
    let keeps_group = file.metadata()?.gid() == before.gid();
    let mode = rights(before.mode(), keeps_group);
    until_done(|| file.permit(mode))
}

// The rights of a file that had these. Where its group is another, those of the old one count among all others, and
// those of the new one counted among them: both have what both had.
fn rights(before: u32, keeps_group: bool) -> u32 {
    if keeps_group {
        return before & 0o777;
    }
    let both = before >> 3 & before & 0o007;
    before & 0o700 | both << 3 | both
}

// Waits until a file or a folder is stored. Where the system knows of no such waiting, there is none.
fn sync<F: SaveFile>(file: &F) -> io::Result<()> {
    let synced = until_done(|| file.sync());
    match synced {
        Err(error) if knows_no_sync(&error) => Ok(()),
        _ => synced,
    }
}

fn knows_no_sync(error: &Error) -> bool {
    matches!(
        error.kind(),
        ErrorKind::InvalidInput | ErrorKind::Unsupported
    )
}

// Puts the file in its place, where its name still leads to it.
fn move_onto<R: Files>(
    files: &R,
    temporary: &PathBuf,
    file: &R::File,
    path: &PathBuf,
) -> io::Result<()> {
    if !leads_to(files, temporary, file)? {
        return Err(exchanged());
    }
    fs::rename(files, temporary, path)
}

fn remove<R: Files>(files: &R, temporary: &PathBuf, file: &R::File) -> io::Result<()> {
    if leads_to(files, temporary, file)? {
        fs::remove_file(files, temporary)?;
    }
    Ok(())
}

fn leads_to<R: Files>(files: &R, path: &PathBuf, file: &R::File) -> io::Result<bool> {
    let found = fs::symlink_metadata(files, path)?;
    let made = file.metadata()?;
    Ok(found.dev() == made.dev() && found.ino() == made.ino())
}

fn exchanged() -> Error {
    Error::other("another file was put in its place meanwhile")
}

// An error after something was changed. Want of memory would say that nothing was.
fn after_a_change(error: Error) -> Error {
    match error.kind() {
        ErrorKind::OutOfMemory => Error::other("no memory in the midst of writing"),
        _ => error,
    }
}
