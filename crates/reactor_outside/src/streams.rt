ghost use Rattle.std.specs.Prelude.{◌≡◌, ◌≤◌, ◌<◌, None, length, IfOk};
ghost use Rattle.std.specs.Io.KnownBytes.{ReadConsumes, WriteAppends};
ghost use Rattle.reactor_outside.specs.Count.{Counts};

use crate::retry::{read_some, write_some};
use crate::sink::Sink;
use crate::source::{Failed, Source};
use std::io::{Read, Write};

/// A source over a reader of std, as standard input. It tells no content. A read that a signal interrupts is tried
/// again, a bounded number of times.
#[derive(Drop)]
pub struct ReaderSource<R> {
    reader: R,
    faults: u64,
}

impl<R: Read> ReaderSource<R> {
    /// The source over this reader. None of its calls has failed.
    pub fn new(reader: R) -> ReaderSource<R>
        ensures reader { result.reader ≡ reader }
        ensures faults { result.faults ≡ 0 }
    {
        ReaderSource { reader, faults: 0 }
    }
}

impl<R: Read> Source for ReaderSource<R> {
    ghost faults = { λ source. source.faults };

    ghost left = { λ _. None };

    fn read(&mut self, into: &mut [u8]) -> Result<usize, Failed>
        ensures count { Counts self.old.faults self.new.faults result }
        ensures within { IfOk result (λ n. n ≤ length into.old) }
        // Where the reader tells its bytes, exactly what was read is gone from them, nothing after a failure, and no
        // byte is read only where none is left.
        ensures bytes { ReadConsumes
            (R.remaining self.old.reader) (R.remaining self.new.reader) result into.new }
    {
        match read_some(&mut self.reader, into) {
            Ok(count) => Ok(count),
            Err(_) => {
                self.faults = self.faults.saturating_add(1);
                Err(Failed)
            }
        }
    }
}

/// A sink over a writer of std, as standard output. It tells no content. A write that a signal interrupts is tried
/// again, a bounded number of times.
#[derive(Drop)]
pub struct WriterSink<W> {
    writer: W,
    faults: u64,
}

impl<W: Write> WriterSink<W> {
    /// The sink over this writer. None of its calls has failed.
    pub fn new(writer: W) -> WriterSink<W>
        ensures writer { result.writer ≡ writer }
        ensures faults { result.faults ≡ 0 }
    {
        WriterSink { writer, faults: 0 }
    }
}

impl<W: Write> Sink for WriterSink<W> {
    ghost faults = { λ sink. sink.faults };

    ghost taken = { λ _. None };

    fn write(&mut self, piece: &[u8]) -> Result<usize, Failed>
        ensures count { Counts self.old.faults self.new.faults result }
        ensures within { IfOk result (λ n. n ≤ length piece.now) }
        ensures some { 0 < length piece.now → IfOk result (λ n. 0 < n) }
        // Where the writer tells its bytes, exactly what was written is added to them, and nothing after a failure.
        ensures bytes { WriteAppends
            (W.contents self.old.writer) (W.contents self.new.writer) result piece.now }
    {
        match write_some(&mut self.writer, piece) {
            Ok(count) => {
                // A writer that takes nothing of a piece would be asked for ever.
                if count == 0 && !piece.is_empty() {
                    self.faults = self.faults.saturating_add(1);
                    return Err(Failed);
                }
                Ok(count)
            }
            Err(_) => {
                self.faults = self.faults.saturating_add(1);
                Err(Failed)
            }
        }
    }
}
