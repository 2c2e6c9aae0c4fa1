ghost use Rattle.std.specs.Prelude.{◌≡◌, ◌≢◌, ◌≤◌, ◌<◌, List, ℕ, None, length, Err, IfSome, IfOk, IfErr, OnOk};
ghost use Rattle.std.specs.Io.KnownBytes.{Appends};
ghost use Rattle.std.specs.IoError.{error_kind};
ghost use Rattle.reactor_outside.specs.declared.shelf.ShelfRefusal.TheVariants.{TooLong};
ghost use Rattle.reactor_outside.specs.Errors.{failure_at, refusal_at};
ghost use Rattle.reactor_outside.specs.Shelf.{CountsCall, RefusesWrite};

use crate::shelf::{Shelf, ShelfRefusal};
use std::alloc::Global;
use std::fs::OpenOptions;
use std::io;
use std::io::{ErrorKind, Read, Write};
use std::rt::Files;

/// The files of the folder in which the program starts. It tells no content.
#[derive(Drop)]
pub struct FolderShelf<R> {
    runtime: R,
    faults: u64,
}

impl<R: Files> FolderShelf<R> {
    /// The shelf over the files that this runtime reaches. None of its calls has failed.
    pub fn new(runtime: R) -> FolderShelf<R>
        ensures { result.faults ≡ 0 }
    {
        FolderShelf { runtime, faults: 0 }
    }
}

// The answer for an error at an open file, or at a file that is to be written.
fn failure_of(error: io::Error) -> ShelfRefusal
    ensures { result ≡ failure_at (error_kind error) }
{
    match error.kind() {
        ErrorKind::OutOfMemory => ShelfRefusal::NoMemory,
        _ => ShelfRefusal::Failed,
    }
}

// The answer for an error at a file that is to be opened for reading. Only a file that isn't there is missing.
fn refusal_of(error: io::Error) -> ShelfRefusal
    ensures { result ≡ refusal_at (error_kind error) }
{
    match error.kind() {
        ErrorKind::NotFound => ShelfRefusal::Missing,
        ErrorKind::NotADirectory => ShelfRefusal::Missing,
        _ => failure_of(error),
    }
}

// The bytes of an open file, where it has at most `limit` of them.
fn read_whole<F: Read + Drop>(alloc: Global, file: F, limit: usize) -> Result<Vec<u8>, ShelfRefusal>
    ensures within { IfOk result (λ bytes. length bytes.items ≤ limit) }
    ensures whole { IfOk result (λ bytes. IfSome (F.remaining file) (λ held. bytes.items ≡ held)) }
    ensures too_long { result ≡ Err TooLong
        → IfSome (F.remaining file) (λ held. limit < length held) }
{
    let mut bytes = Vec::new(alloc);
    let mut first = file.take((limit as u64).saturating_add(1));
    match first.read_to_end(&mut bytes) {
        Ok(_) => {}
        Err(error) => return Err(failure_of(error)),
    }
    if bytes.len() > limit {
        return Err(ShelfRefusal::TooLong);
    }
    Ok(bytes)
}

// The bytes of the file, where it has at most `limit` of them.
fn read_file<R: Files>(
    alloc: Global,
    runtime: &R,
    name: &str,
    limit: usize,
) -> Result<Vec<u8>, ShelfRefusal>
    ensures { IfOk result (λ bytes. length bytes.items ≤ limit) }
{
    match OpenOptions::new().read(true).open(runtime, name) {
        Ok(file) => read_whole(alloc, file, limit),
        Err(error) => Err(refusal_of(error)),
    }
}

// Puts the bytes behind those that an open file has.
fn write_whole<F: Write>(file: &mut F, bytes: &[u8]) -> Result<(), ShelfRefusal>
    ensures whole { OnOk result (Appends (F.contents file.old) (F.contents file.new) bytes.now) }
    ensures refused { IfErr result RefusesWrite }
{
    match file.write_all(bytes) {
        Ok(()) => Ok(()),
        Err(_) => Err(ShelfRefusal::Failed),
    }
}

// Puts the bytes in the file. That its folder isn't there is a failure.
fn write_file<R: Files>(runtime: &R, name: &str, bytes: &[u8]) -> Result<(), ShelfRefusal>
    ensures { IfErr result RefusesWrite }
{
    let opened = OpenOptions::new()
        .write(true)
        .create(true)
        .truncate(true)
        .open(runtime, name);
    match opened {
        Ok(mut file) => write_whole(&mut file, bytes),
        Err(error) => Err(failure_of(error)),
    }
}

impl<R: Files> Shelf for FolderShelf<R> {
    ghost faults = { λ shelf. shelf.faults };

    ghost files = { λ _. None };

    fn read(&mut self, alloc: Global, name: &str, limit: usize) -> Result<Vec<u8>, ShelfRefusal>
        ensures count { CountsCall self.old.faults self.new.faults result }
        // Though it tells no file, it keeps to the limit.
        ensures within { IfOk result (λ bytes. length bytes.items ≤ limit) }
    {
        match read_file(alloc, &self.runtime, name, limit) {
            Ok(bytes) => Ok(bytes),
            Err(ShelfRefusal::Failed) => {
                self.faults = self.faults.saturating_add(1);
                Err(ShelfRefusal::Failed)
            }
            Err(refusal) => Err(refusal),
        }
    }

    fn write(&mut self, name: &str, bytes: &[u8]) -> Result<(), ShelfRefusal>
        ensures count { CountsCall self.old.faults self.new.faults result }
        ensures refused { IfErr result RefusesWrite }
    {
        match write_file(&self.runtime, name, bytes) {
            Ok(()) => Ok(()),
            Err(ShelfRefusal::Failed) => {
                self.faults = self.faults.saturating_add(1);
                Err(ShelfRefusal::Failed)
            }
            Err(refusal) => Err(refusal),
        }
    }
}
