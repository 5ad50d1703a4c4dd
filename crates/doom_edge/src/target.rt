// What a name leads to, whatever it is spelled like.
use std::fs::Metadata;
use std::io::{Error, ErrorKind};
use std::os::unix::fs::MetadataExt;
use std::path::PathBuf;
use std::rt::Files;
use std::{fs, io};

// How many symbolic links in a row are followed, as by the system.
const MOST_LINKS: u32 = 40;

// What a name leads to, through symbolic links.
pub(crate) enum Target {
    // A regular file.
    File(PathBuf),
    // A place where nothing stands yet.
    Free(PathBuf),
    // Something with no content to lose, as a device or a pipe.
    Device,
}

// What `name` leads to. A regular file that is reached through a descriptor of a process alone, as by /dev/stdout, has
// no name that another file could take, and is an error.
pub(crate) fn target_of<R: Files + AllocGlobal>(files: &R, name: &str) -> io::Result<Target> {
    let mut path = PathBuf::from_str(files.alloc(), name)?;
    for _ in 0..=MOST_LINKS {
        match fs::symlink_metadata(files, &path) {
            Ok(found) if found.is_symlink() => {
                if is_of_process(files, &found) {
                    return held_open(files, &path);
                }
                path = follow(files, &path)?;
            }
            Ok(found) if found.is_file() => return Ok(Target::File(path)),
            Ok(_) => return Ok(Target::Device),
            Err(error) if error.kind() == ErrorKind::NotFound => return Ok(Target::Free(path)),
            Err(error) => return Err(error),
        }
    }
    Err(Error::from(ErrorKind::FilesystemLoop))
}

// Whether this is a link that the system shows among what a process holds, and not one that stands in a folder.
fn is_of_process<R: Files>(files: &R, link: &Metadata) -> bool {
    match fs::symlink_metadata(files, "/proc/self") {
        Ok(process) => process.dev() == link.dev(),
        Err(_) => false,
    }
}

// What such a link leads to.
fn held_open<R: Files>(files: &R, link: &PathBuf) -> io::Result<Target> {
    if fs::metadata(files, link)?.is_file() {
        return Err(Error::other("a regular file behind a descriptor is not replaced"));
    }
    Ok(Target::Device)
}

// Where a symbolic link leads. A relative one starts from its own folder.
fn follow<R: Files + AllocGlobal>(files: &R, path: &PathBuf) -> io::Result<PathBuf> {
    let link = fs::read_link(files, path)?;
    match path.parent() {
        Some(folder) => Ok(folder.join(files.alloc(), link)?),
        None => Ok(link),
    }
}
