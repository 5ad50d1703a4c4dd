// Real files in a real folder, and real output. Links, rights and devices are tried by tools/check_files.
use crate::failing::{FailingFiles, Step};
use doom_edge::{FileShelf, OutSink, PutFault, Shelf, Sink, TakeFault};
use std::fs;
use std::fs::Permissions;
use std::os::unix::fs::PermissionsExt;
use std::path::PathBuf;
use std::process::id;
use std::test::Fail;

// An empty folder of this run's own.
fn folder(rt: &HostRuntime, name: &str) -> Result<PathBuf, Fail> {
    let id = id(rt.process());
    let name = format!(in rt.alloc(); "dsda_build-{id}-{name}")?;
    let path = std::env::temp_dir(rt)?.join(rt.alloc(), &name)?;
    fs::create_dir(rt, &path)?;
    Ok(path)
}

fn at(rt: &HostRuntime, folder: &PathBuf, name: &str) -> Result<String, Fail> {
    Ok(folder.join(rt.alloc(), name)?.into_string())
}

fn holds(rt: &HostRuntime, path: &str, bytes: &[u8]) -> Result<bool, Fail> {
    Ok(fs::read(rt, path)?.as_slice() == bytes)
}

fn entries(rt: &HostRuntime, folder: &PathBuf) -> Result<usize, Fail> {
    let mut count = 0usize;
    for entry in fs::read_dir(rt, folder)? {
        let _entry = entry?;
        count = count.saturating_add(1);
    }
    Ok(count)
}

// A file is put, taken in part and whole, and put over. The folder then has that file alone.
#[test]
fn saves_and_saves_over(rt: HostRuntime) -> Result<(), Fail> {
    let folder = folder(&rt, "over")?;
    let path = at(&rt, &folder, "demo.lmp")?;
    let mut shelf = FileShelf::new(&rt);
    let mut into = Vec::new(rt.alloc());

    assert!(rt; shelf.take(path.as_str(), 9, &mut into) == Err(TakeFault::Failed));
    shelf.put(path.as_str(), b"first")?;
    for (most, want) in [(0, 0), (4, 4), (5, 5), (6, 5)] {
        shelf.take(path.as_str(), most, &mut into)?;
        assert_eq!(rt; into.len(), want);
        assert!(rt; b"first".starts_with(&into));
    }

    fs::set_permissions(&rt, &path, Permissions::from_mode(0o640))?;
    shelf.put(path.as_str(), b"a longer second")?;
    assert!(rt; holds(&rt, path.as_str(), b"a longer second")?);
    assert_eq!(rt;
        fs::metadata(&rt, &path)?.permissions().mode() & 0o777,
        0o640
    );
    shelf.put(path.as_str(), b"")?;
    assert!(rt; holds(&rt, path.as_str(), b"")?);
    assert_eq!(rt; entries(&rt, &folder)?, 1);
    fs::remove_dir_all(&rt, &folder)?;
    Ok(())
}

// Whichever step of a save fails, the file that stood there is as it was, and nothing is left beside it.
#[test]
fn loses_nothing_at_any_step(rt: HostRuntime) -> Result<(), Fail> {
    let folder = folder(&rt, "steps")?;
    let path = at(&rt, &folder, "demo.lmp")?;
    FileShelf::new(&rt).put(path.as_str(), b"precious")?;
    for fails in [
        Step::OpenFolder,
        Step::Create,
        Step::Write,
        Step::Stall,
        Step::Permit,
        Step::Sync,
        Step::Interrupt,
        Step::Rename,
    ] {
        let files = FailingFiles { files: &rt, fails };
        let put = FileShelf::new(&files).put(path.as_str(), b"replaced");
        assert!(rt; put == Err(PutFault::Failed), "at {fails:?}");
        assert!(rt; holds(&rt, path.as_str(), b"precious")?, "at {fails:?}");
        assert_eq!(rt; entries(&rt, &folder)?, 1, "at {fails:?}");
    }
    fs::remove_dir_all(&rt, &folder)?;
    Ok(())
}

// What a file system doesn't know of is no fault.
#[test]
fn saves_where_little_is_known(rt: HostRuntime) -> Result<(), Fail> {
    let folder = folder(&rt, "little")?;
    let path = at(&rt, &folder, "demo.lmp")?;
    for fails in [Step::Nothing, Step::Unsupported, Step::Give] {
        let files = FailingFiles { files: &rt, fails };
        FileShelf::new(&files).put(path.as_str(), b"replaced")?;
        assert!(rt; holds(&rt, path.as_str(), b"replaced")?, "at {fails:?}");
        assert_eq!(rt; entries(&rt, &folder)?, 1, "at {fails:?}");
    }
    fs::remove_dir_all(&rt, &folder)?;
    Ok(())
}

// Where the temporary file's name leads to another file, neither that file nor the one that stood there is touched.
#[test]
fn trusts_no_exchanged_name(rt: HostRuntime) -> Result<(), Fail> {
    let folder = folder(&rt, "exchanged")?;
    let path = at(&rt, &folder, "demo.lmp")?;
    FileShelf::new(&rt).put(path.as_str(), b"precious")?;
    let files = FailingFiles {
        files: &rt,
        fails: Step::Exchange,
    };
    let put = FileShelf::new(&files).put(path.as_str(), b"replaced");
    assert!(rt; put == Err(PutFault::Failed));
    assert!(rt; holds(&rt, path.as_str(), b"precious")?);
    assert_eq!(rt; entries(&rt, &folder)?, 2);
    fs::remove_dir_all(&rt, &folder)?;
    Ok(())
}

// The last failure is told, in the system's words.
#[test]
fn tells_what_failed(rt: HostRuntime) -> Result<(), Fail> {
    let mut shelf = FileShelf::new(&rt);
    let mut into = Vec::new(rt.alloc());
    assert!(rt; shelf.failure() == "");
    assert!(rt; shelf.take("/proc/none", 9, &mut into) == Err(TakeFault::Failed));
    assert!(rt; shelf.failure() == "cannot read /proc/none: No such file or directory");
    assert!(rt; shelf.put("/dev/full", b"never") == Err(PutFault::Failed));
    assert!(rt; shelf.failure() == "cannot write /dev/full: No space left on device");
    Ok(())
}

#[test]
fn pushes_to_real_output(rt: HostRuntime) -> Result<(), Fail> {
    let mut sink = OutSink::new(&rt);
    sink.push(b"to real output\n")?;
    sink.push(b"")?;
    assert!(rt; sink.failure(rt.alloc(), "it").is_empty());
    Ok(())
}
