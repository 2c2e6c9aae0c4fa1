//! Sources over readers and sinks over writers.
use crate::faulty::{Calls, Failing, FaultyReader, FaultyWriter};
use crate::same;
use reactor_outside::{Failed, ReaderSource, Sink, Source, WriterSink, put};
use std::io::ErrorKind;
use std::test::Fail;

// More calls than any test makes.
const ALWAYS: u64 = u64::MAX;

/// Up to how many bytes a call moves, which calls fail, and what reads of at most 4 bytes give of ten bytes.
const READS: [(usize, &[Failing], &[Result<usize, Failed>]); 6] = [
    (9, &[], &[Ok(4), Ok(4), Ok(2), Ok(0), Ok(0)]),
    (3, &[], &[Ok(3), Ok(3), Ok(3), Ok(1), Ok(0)]),
    // A failure is no end, and loses no byte.
    (
        9,
        &[
            Failing(2, 2, ErrorKind::Other),
            Failing(4, 4, ErrorKind::BrokenPipe),
            Failing(6, 6, ErrorKind::Other),
        ],
        &[
            Ok(4),
            Err(Failed),
            Ok(4),
            Err(Failed),
            Ok(2),
            Err(Failed),
            Ok(0),
        ],
    ),
    // A read that a signal interrupts is tried again.
    (
        9,
        &[
            Failing(1, 1, ErrorKind::Interrupted),
            Failing(3, 3, ErrorKind::Interrupted),
        ],
        &[Ok(4), Ok(4), Ok(2), Ok(0)],
    ),
    (
        9,
        &[Failing(2, 1000, ErrorKind::Interrupted)],
        &[Ok(4), Ok(4), Ok(2), Ok(0)],
    ),
    // But not for ever.
    (
        9,
        &[Failing(2, ALWAYS, ErrorKind::Interrupted)],
        &[Ok(4), Err(Failed)],
    ),
];

#[test]
fn a_reader_is_read_to_its_end(rt: HostRuntime) -> Result<(), Fail> {
    for (most, failing, wanted) in READS {
        let reader = FaultyReader::new(b"abcdefghij", Calls::new(most, failing));
        let mut source = ReaderSource::new(reader);
        let mut whole = Vec::new(rt.alloc());
        for answer in wanted {
            let mut into = [0u8; 4];
            let read = source.read(&mut into);
            same(&rt, read, *answer, "a piece");
            whole.extend_from_slice(&into[..read.unwrap_or(0).min(4)])?;
        }
        let ended = wanted.contains(&Ok(0));
        same(&rt, whole.len() == 10, ended, "all");
        same(
            &rt,
            b"abcdefghij".starts_with(whole.as_slice()),
            true,
            "in order",
        );
    }
    Ok(())
}

/// Up to how many bytes a call moves, which calls fail, what a write of six bytes answers, and what was taken.
const WRITES: [(usize, &[Failing], Result<(), Failed>, &[u8]); 8] = [
    (9, &[], Ok(()), b"abcdef"),
    // What a short write left is written too.
    (1, &[], Ok(()), b"abcdef"),
    (4, &[], Ok(()), b"abcdef"),
    // A failure after some bytes is told.
    (1, &[Failing(3, 3, ErrorKind::Other)], Err(Failed), b"ab"),
    (
        4,
        &[Failing(2, 2, ErrorKind::BrokenPipe)],
        Err(Failed),
        b"abcd",
    ),
    // A writer that takes nothing fails.
    (0, &[], Err(Failed), b""),
    // A write that a signal interrupts is tried again, but not for ever.
    (
        1,
        &[Failing(3, 1001, ErrorKind::Interrupted)],
        Ok(()),
        b"abcdef",
    ),
    (
        1,
        &[Failing(3, ALWAYS, ErrorKind::Interrupted)],
        Err(Failed),
        b"ab",
    ),
];

#[test]
fn a_writer_takes_all_or_fails(rt: HostRuntime) -> Result<(), Fail> {
    for (most, failing, wanted, taken) in WRITES {
        let mut writer = FaultyWriter::new(Vec::new(rt.alloc()), Calls::new(most, failing));
        let written = put(&mut WriterSink::new(&mut writer), b"abcdef");
        same(&rt, written, wanted, "the answer");
        same(&rt, writer.taken.as_slice(), taken, "what was taken");
    }
    Ok(())
}

#[test]
fn nothing_is_written_at_once(rt: HostRuntime) -> Result<(), Fail> {
    let mut writer = FaultyWriter::new(Vec::new(rt.alloc()), Calls::new(0, &[]));
    let mut sink = WriterSink::new(&mut writer);
    let nothing = sink.write(b"");
    same(&rt, nothing, Ok(0), "nothing");
    let one = sink.write(b"a");
    same(&rt, one, Err(Failed), "a byte");
    Ok(())
}
