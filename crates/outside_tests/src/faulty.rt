//! Readers, writers and files that fail at chosen calls.
use std::alloc::Allocator;
use std::fs::{Metadata, OpenFile, OpenOptions};
use std::io;
use std::io::{Empty, ErrorKind, Read, Seek, SeekFrom, Write};
use std::rt::Files;

/// From the call of the first number, counted from 1, to that of the second, the calls fail in this way.
#[derive(Clone, Copy)]
pub struct Failing(pub u64, pub u64, pub ErrorKind);

/// What can happen to the calls of a stream: each moves at most so many bytes, and some fail.
#[derive(Clone, Copy)]
pub struct Calls<'a> {
    made: u64,
    most: usize,
    failing: &'a [Failing],
}

impl<'a> Calls<'a> {
    pub fn new(most: usize, failing: &'a [Failing]) -> Calls<'a> {
        Calls {
            made: 0,
            most,
            failing,
        }
    }

    // How many of these bytes the next call moves.
    fn next_call(&mut self, asked: usize) -> io::Result<usize> {
        self.made = self.made.saturating_add(1);
        for Failing(first, last, kind) in self.failing {
            if *first <= self.made && self.made <= *last {
                return Err(io::Error::from(*kind));
            }
        }
        Ok(asked.min(self.most))
    }
}

/// A reader of these bytes.
#[derive(Drop)]
pub struct FaultyReader<'a> {
    bytes: &'static [u8],
    calls: Calls<'a>,
}

impl<'a> FaultyReader<'a> {
    pub fn new(bytes: &'static [u8], calls: Calls<'a>) -> FaultyReader<'a> {
        FaultyReader { bytes, calls }
    }
}

impl Read for FaultyReader<'_> {
    fn read(&mut self, into: &mut [u8]) -> io::Result<usize> {
        let most = self.calls.next_call(into.len())?;
        let count = most.min(into.len()).min(self.bytes.len());
        into[..count].copy_from_slice(&self.bytes[..count]);
        self.bytes = &self.bytes[count..];
        Ok(count)
    }
}

/// A writer that keeps what it takes.
#[derive(Drop)]
pub struct FaultyWriter<'a> {
    pub taken: Vec<u8>,
    calls: Calls<'a>,
}

impl<'a> FaultyWriter<'a> {
    pub fn new(taken: Vec<u8>, calls: Calls<'a>) -> FaultyWriter<'a> {
        FaultyWriter { taken, calls }
    }
}

impl Write for FaultyWriter<'_> {
    fn write(&mut self, piece: &[u8]) -> io::Result<usize> {
        let count = self.calls.next_call(piece.len())?.min(piece.len());
        self.taken.extend_from_slice(&piece[..count])?;
        Ok(count)
    }

    fn flush(&mut self) -> io::Result<()> {
        Ok(())
    }
}

/// Files of which each has these bytes, or can't be opened. What is written to one is lost.
#[derive(Clone, Copy)]
pub struct FaultyFiles<'a> {
    pub refused: Option<ErrorKind>,
    pub bytes: &'static [u8],
    pub calls: Calls<'a>,
}

/// An open file.
#[derive(Drop)]
pub struct FaultyFile<'a> {
    bytes: &'static [u8],
    calls: Calls<'a>,
}

impl Read for FaultyFile<'_> {
    fn read(&mut self, into: &mut [u8]) -> io::Result<usize> {
        let most = self.calls.next_call(into.len())?;
        let count = most.min(into.len()).min(self.bytes.len());
        into[..count].copy_from_slice(&self.bytes[..count]);
        self.bytes = &self.bytes[count..];
        Ok(count)
    }
}

impl Write for FaultyFile<'_> {
    fn write(&mut self, piece: &[u8]) -> io::Result<usize> {
        Ok(self.calls.next_call(piece.len())?.min(piece.len()))
    }

    fn flush(&mut self) -> io::Result<()> {
        Ok(())
    }
}

fn unsupported<T>() -> io::Result<T> {
    Err(io::Error::from(ErrorKind::Unsupported))
}

impl Seek for FaultyFile<'_> {
    fn seek(&mut self, _to: SeekFrom) -> io::Result<u64> {
        unsupported()
    }
}

impl OpenFile for FaultyFile<'_> {
    fn metadata(&self) -> io::Result<Metadata> {
        unsupported()
    }

    fn set_len(&self, _size: u64) -> io::Result<()> {
        unsupported()
    }

    fn sync_all(&self) -> io::Result<()> {
        unsupported()
    }

    fn sync_data(&self) -> io::Result<()> {
        unsupported()
    }
}

impl<'a> Files for FaultyFiles<'a> {
    type File = FaultyFile<'a>;

    type Dir = Empty;

    fn open_file(&self, how: &OpenOptions, _path: &str) -> io::Result<FaultyFile<'a>> {
        how.check()?;
        match self.refused {
            Some(kind) => Err(io::Error::from(kind)),
            None => Ok(FaultyFile {
                bytes: self.bytes,
                calls: self.calls,
            }),
        }
    }

    fn open_dir(&self, _path: &str) -> io::Result<Empty> {
        unsupported()
    }

    fn metadata(&self, _path: &str) -> io::Result<Metadata> {
        unsupported()
    }

    fn symlink_metadata(&self, _path: &str) -> io::Result<Metadata> {
        unsupported()
    }

    fn copy(&self, _from: &str, _to: &str) -> io::Result<u64> {
        unsupported()
    }

    fn rename(&self, _from: &str, _to: &str) -> io::Result<()> {
        unsupported()
    }

    fn remove_file(&self, _path: &str) -> io::Result<()> {
        unsupported()
    }

    fn create_dir(&self, _path: &str) -> io::Result<()> {
        unsupported()
    }

    fn remove_dir(&self, _path: &str) -> io::Result<()> {
        unsupported()
    }

    fn remove_dir_all<B: Allocator>(&self, _alloc: B, _path: &str) -> io::Result<()> {
        unsupported()
    }
}
