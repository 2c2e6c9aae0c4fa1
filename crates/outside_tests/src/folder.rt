//! The shelf over a folder: over files that fail, and over those of the system.
use crate::faulty::{Calls, Failing, FaultyFiles};
use crate::same;
use reactor_outside::ShelfRefusal::{Failed, Missing, NoMemory};
use reactor_outside::{FolderShelf, Shelf, ShelfRefusal};
use std::alloc::Global;
use std::fs;
use std::io::ErrorKind;
use std::os::unix::fs::symlink;
use std::process::Abort;
use std::rt::Files;
use std::test::Fail;

const TEXT: &[u8] = b"abcdefghij";

fn files(refused: Option<ErrorKind>, most: usize, failing: &[Failing]) -> FaultyFiles<'_> {
    FaultyFiles {
        refused,
        bytes: TEXT,
        calls: Calls::new(most, failing),
    }
}

/// What an error at opening a file is taken for, by a read and by a write.
const OPENINGS: [(ErrorKind, ShelfRefusal, ShelfRefusal); 9] = [
    (ErrorKind::NotFound, Missing, Failed),
    (ErrorKind::NotADirectory, Missing, Failed),
    (ErrorKind::OutOfMemory, NoMemory, NoMemory),
    (ErrorKind::PermissionDenied, Failed, Failed),
    (ErrorKind::IsADirectory, Failed, Failed),
    (ErrorKind::FilesystemLoop, Failed, Failed),
    (ErrorKind::InvalidFilename, Failed, Failed),
    (ErrorKind::TimedOut, Failed, Failed),
    (ErrorKind::Uncategorized, Failed, Failed),
];

#[test]
fn only_a_file_that_is_not_there_is_missing(rt: HostRuntime) -> Result<(), Fail> {
    for (kind, read, write) in OPENINGS {
        let mut shelf = FolderShelf::new(files(Some(kind), 9, &[]));
        let refused = shelf.read(rt.alloc(), "a", 99).err();
        same(&rt, refused, Some(read), "read");
        let written = shelf.write("a", TEXT);
        same(&rt, written, Err(write), "write");
    }
    Ok(())
}

/// Up to how many bytes a call moves, which calls fail, and what reads and writes of ten bytes answer.
const CALLS: [(usize, &[Failing], Result<(), ShelfRefusal>); 6] = [
    (99, &[], Ok(())),
    (1, &[], Ok(())),
    (3, &[Failing(2, 900, ErrorKind::Interrupted)], Ok(())),
    (
        3,
        &[Failing(2, 2, ErrorKind::Other)],
        Err(ShelfRefusal::Failed),
    ),
    // An error at an open file is never that it is missing.
    (
        3,
        &[Failing(1, 1, ErrorKind::NotFound)],
        Err(ShelfRefusal::Failed),
    ),
    (
        3,
        &[Failing(4, 4, ErrorKind::NotADirectory)],
        Err(ShelfRefusal::Failed),
    ),
];

#[test]
fn a_file_is_read_and_written_whole_or_fails(rt: HostRuntime) -> Result<(), Fail> {
    for (most, failing, wanted) in CALLS {
        let mut shelf = FolderShelf::new(files(None, most, failing));
        let read = shelf.read(rt.alloc(), "a", 10);
        let whole = read.map(|bytes| bytes.as_slice() == TEXT);
        same(&rt, whole, wanted.map(|()| true), "read");
        let written = shelf.write("a", TEXT);
        same(&rt, written, wanted, "write");
    }
    Ok(())
}

#[test]
fn a_file_is_too_long_or_the_system_is_full(rt: HostRuntime) -> Result<(), Fail> {
    let mut shelf = FolderShelf::new(files(None, 1, &[]));
    let read = shelf.read(rt.alloc(), "a", 9).err();
    same(&rt, read, Some(ShelfRefusal::TooLong), "read");
    let mut full = FolderShelf::new(files(None, 0, &[]));
    let written = full.write("a", TEXT);
    same(&rt, written, Err(ShelfRefusal::Failed), "write");
    Ok(())
}

// The file has these bytes, and is refused where fewer are asked for.
fn holds<F: Files>(
    rt: &impl Abort,
    alloc: Global,
    shelf: &mut FolderShelf<F>,
    name: &str,
    bytes: &[u8],
) {
    let read = shelf.read(alloc, name, bytes.len());
    let whole = read.map(|found| found.as_slice() == bytes);
    same(rt, whole, Ok(true), name);
    let shorter = shelf.read(alloc, name, bytes.len().saturating_sub(1)).err();
    same(rt, shorter, Some(ShelfRefusal::TooLong), name);
}

// The file can't be read, for this reason, nor written.
fn refuses<F: Files>(
    rt: &impl Abort,
    alloc: Global,
    shelf: &mut FolderShelf<F>,
    name: &str,
    refusal: ShelfRefusal,
) {
    let read = shelf.read(alloc, name, 9).err();
    same(rt, read, Some(refusal), name);
    let written = shelf.write(name, b"text");
    same(rt, written, Err(ShelfRefusal::Failed), name);
}

#[test]
fn a_folder_keeps_long_files(rt: HostRuntime) -> Result<(), Fail> {
    let alloc = rt.alloc();
    let name = "outside_tests.long";
    let mut long = Vec::new(alloc);
    for number in 0..10_000u32 {
        long.push((number % 251) as u8)?;
    }
    let mut shelf = FolderShelf::new(&rt);
    // The second time a shorter file stands in place of a longer one.
    for bytes in [long.as_slice(), b"short".as_slice()] {
        let written = shelf.write(name, bytes);
        same(&rt, written, Ok(()), name);
        holds(&rt, alloc, &mut shelf, name, bytes);
    }
    // No file stands below a file.
    refuses(
        &rt,
        alloc,
        &mut shelf,
        "outside_tests.long/file",
        ShelfRefusal::Missing,
    );
    fs::remove_file(&rt, name)?;
    let removed = shelf.read(alloc, name, 9).err();
    same(&rt, removed, Some(ShelfRefusal::Missing), name);
    Ok(())
}

#[test]
fn what_is_no_file_fails(rt: HostRuntime) -> Result<(), Fail> {
    let alloc = rt.alloc();
    let mut shelf = FolderShelf::new(&rt);
    // A folder in place of a file, links that lead to each other, a name that is too long: all fail, whoever asks.
    fs::create_dir(&rt, "outside_tests.folder")?;
    symlink(&rt, "outside_tests.link", "outside_tests.link")?;
    let mut name = String::new(alloc);
    for _ in 0..256 {
        name.push('a')?;
    }
    for name in ["outside_tests.folder", "outside_tests.link", name.as_str()] {
        refuses(&rt, alloc, &mut shelf, name, ShelfRefusal::Failed);
    }
    fs::remove_dir(&rt, "outside_tests.folder")?;
    fs::remove_file(&rt, "outside_tests.link")?;
    // Where there is no folder, a file is missing, and can't be written.
    refuses(
        &rt,
        alloc,
        &mut shelf,
        "outside_tests.nowhere/file",
        ShelfRefusal::Missing,
    );
    Ok(())
}
