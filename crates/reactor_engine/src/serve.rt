//! The run of a script on a session: each piece that is read is answered before the next is read.
ghost use Rattle.std.specs.Prelude.{◌≡◌, ◌≤◌, ◌<◌, ◌↔◌, List, ℕ, Option, [], length, IfSome, IfOk, IfErr, OnOk, OnErr};
ghost use Rattle.reactor_outside.specs.Count.{Counts, Rose};
ghost use Rattle.reactor_outside.specs.Source.{after_bytes, HoldsNext};
ghost use Rattle.reactor_outside.specs.Sink.{with_bytes};
ghost use Rattle.reactor_outside.specs.Shelf.{Files};
ghost use Rattle.script_lines.specs.Lines.{HasNoNewline};
ghost use Rattle.reactor_meaning.specs.Command.{begun};
ghost use Rattle.reactor_meaning.specs.Transcript.{frame_of};
ghost use Rattle.reactor_engine.specs.Session.{state_of};
ghost use Rattle.reactor_engine.specs.Served.{WritesPiece, WritesAll, WritesWhole};
ghost use Rattle.reactor_engine.specs.Serving.{Serves, EndsIn, Unwritten};

use crate::answering::{answer_end, answer_piece};
use crate::session::Session;
use crate::status::Status;
use elm_base::{Name, NoMemory};
use reactor_outside::{Failed, Sink, Source, put};
use script_lines::Lines;
use std::alloc::Global;

/// How many bytes a script has at most.
const MAX_SCRIPT: u64 = 1 << 30;

/// How many bytes are asked for at once.
const PIECE: usize = 4096;

/// Shows the program of this port, and answers the script line by line.
pub fn serve<S: Source, K: Sink>(
    alloc: Global,
    port: Name,
    script: &mut S,
    screen: &mut K,
) -> Status
    ensures { (files : Files)
        → let first = begun (record { port = port }) files in Serves (frame_of first) first
        (record { reads = S.faults script.old; writes = K.faults screen.old; left = S.left script.old; taken = K.taken screen.old })
        (record { reads = S.faults script.new; writes = K.faults screen.new; left = S.left script.new; taken = K.taken screen.new })
        result }
{
    let mut session = Session::begin(alloc, port);
    match show_and_put(alloc, &session, screen) {
        Ok(()) => follow(alloc, &mut session, script, screen),
        Err(status) => status,
    }
}

/// Writes the frame of the session.
fn show_and_put<K: Sink>(alloc: Global, session: &Session, screen: &mut K) -> Result<(), Status>
    ensures ok { OnOk result ((files : Files) → K.taken screen.new
        ≡ with_bytes (frame_of (state_of session.now files)) (K.taken screen.old)) }
    ensures quiet { OnOk result (K.faults screen.new ≡ K.faults screen.old) }
    ensures err { IfErr result (λ status.
        Unwritten (K.faults screen.old) (K.faults screen.new) status) }
{
    let mut out = Vec::new(alloc);
    session.write_frame(alloc, &mut out)?;
    put_all(screen, &out)?;
    Ok(())
}

/// Writes all the bytes.
fn put_all<K: Sink>(screen: &mut K, bytes: &[u8]) -> Result<(), Status>
    ensures ok { OnOk result (K.taken screen.new ≡ with_bytes bytes.now (K.taken screen.old)) }
    ensures quiet { OnOk result (K.faults screen.new ≡ K.faults screen.old) }
    ensures err { IfErr result (λ status. (status ≡ Status.WriteFault)
        × Rose (K.faults screen.old) (K.faults screen.new)) }
{
    match put(screen, bytes) {
        Ok(()) => Ok(()),
        Err(Failed) => Err(Status::WriteFault),
    }
}

/// Answers the script line by line.
fn follow<S: Source, K: Sink>(
    alloc: Global,
    session: &mut Session,
    script: &mut S,
    screen: &mut K,
) -> Status
    ensures { (files : Files) → Serves [] (state_of session.old files)
        (record { reads = S.faults script.old; writes = K.faults screen.old; left = S.left script.old; taken = K.taken screen.old })
        (record { reads = S.faults script.new; writes = K.faults screen.new; left = S.left script.new; taken = K.taken screen.new })
        result }
{
    let mut lines = match Lines::new(alloc) {
        Ok(lines) => lines,
        Err(NoMemory) => return Status::NoMemory,
    };
    follow_lines(alloc, session, &mut lines, script, screen)
}

/// Answers the script line by line, of which no byte was read so far.
fn follow_lines<S: Source, K: Sink>(
    alloc: Global,
    session: &mut Session,
    lines: &mut Lines,
    script: &mut S,
    screen: &mut K,
) -> Status
    requires { lines.old ≡ [] }
    ensures { (files : Files) → Serves [] (state_of session.old files)
        (record { reads = S.faults script.old; writes = K.faults screen.old; left = S.left script.old; taken = K.taken screen.old })
        (record { reads = S.faults script.new; writes = K.faults screen.new; left = S.left script.new; taken = K.taken screen.new })
        result }
{
    let mut input = [0u8; PIECE];
    let mut taken: u64 = 0;
    'pieces: loop {
        let room = (MAX_SCRIPT + 1 - taken).min(PIECE as u64) as usize;
        let count = match read_piece(script, &mut input, room) {
            Ok(count) => count,
            Err(Failed) => return Status::ReadFault,
        };
        if count == 0 {
            return finish(alloc, session, lines, screen);
        }
        taken += count as u64;
        if taken > MAX_SCRIPT {
            // The byte past the limit ends the run; the lines before it are answered.
            return stop_at_limit(alloc, session, lines, &input[..count - 1], screen);
        }
        match answer_and_put(alloc, session, lines, &input[..count], screen) {
            Ok(()) => {}
            Err(status) => return status,
        }
    }
}

/// Ends a run whose script was read to its end.
fn finish<K: Sink>(
    alloc: Global,
    session: &mut Session,
    lines: &mut Lines,
    screen: &mut K,
) -> Status
    requires { HasNoNewline lines.old }
    ensures { EndsIn Status.Done (WritesAll session.old lines.old (K.taken screen.old)
        (K.taken screen.new))
        (K.faults screen.old) (K.faults screen.new) result }
{
    match end_and_put(alloc, session, lines, screen) {
        Ok(()) => Status::Done,
        Err(status) => status,
    }
}

/// Ends a run whose script is too long, after the piece before the limit.
fn stop_at_limit<K: Sink>(
    alloc: Global,
    session: &mut Session,
    lines: &mut Lines,
    piece: &[u8],
    screen: &mut K,
) -> Status
    ensures { EndsIn Status.ScriptTooLong
        (WritesWhole piece.now session.old lines.old (K.taken screen.old) (K.taken screen.new))
        (K.faults screen.old) (K.faults screen.new) result }
{
    match answer_and_put(alloc, session, lines, piece, screen) {
        Ok(()) => Status::ScriptTooLong,
        Err(status) => status,
    }
}

/// Reads at most `room` bytes to the front of the buffer.
fn read_piece<S: Source>(script: &mut S, input: &mut [u8], room: usize) -> Result<usize, Failed>
    requires some { 0 < room }
    requires room { room ≤ length input.old }
    ensures count { Counts (S.faults script.old) (S.faults script.new) result }
    ensures within { IfOk result (λ n. n ≤ room) }
    ensures next { IfOk result (λ n. HoldsNext n (S.left script.old) input.new) }
    ensures rest { IfOk result (λ n. S.left script.new ≡ after_bytes n (S.left script.old)) }
    ensures end { IfOk result (λ n. IfSome (S.left script.old) (λ bytes. (n ≡ 0) ↔ (bytes ≡ []))) }
    ensures failed { OnErr result (S.left script.new ≡ S.left script.old) }
{
    script.read(&mut input[..room])
}

/// Answers each line that ends in the piece, and writes the answers.
fn answer_and_put<K: Sink>(
    alloc: Global,
    session: &mut Session,
    lines: &mut Lines,
    piece: &[u8],
    screen: &mut K,
) -> Result<(), Status>
    ensures served { OnOk result (WritesPiece piece.now
        session.old lines.old (K.taken screen.old) session.new lines.new (K.taken screen.new)) }
    ensures open { OnOk result (HasNoNewline lines.new) }
    ensures quiet { OnOk result (K.faults screen.new ≡ K.faults screen.old) }
    ensures err { IfErr result (λ status.
        Unwritten (K.faults screen.old) (K.faults screen.new) status) }
{
    let mut out = Vec::new(alloc);
    answer_piece(alloc, session, lines, piece, &mut out)?;
    put_all(screen, &out)?;
    Ok(())
}

/// Answers the last line, if it has a byte, and writes the answer.
fn end_and_put<K: Sink>(
    alloc: Global,
    session: &mut Session,
    lines: &mut Lines,
    screen: &mut K,
) -> Result<(), Status>
    requires { HasNoNewline lines.old }
    ensures all { OnOk result (WritesAll session.old lines.old (K.taken screen.old)
        (K.taken screen.new)) }
    ensures quiet { OnOk result (K.faults screen.new ≡ K.faults screen.old) }
    ensures err { IfErr result (λ status.
        Unwritten (K.faults screen.old) (K.faults screen.new) status) }
{
    let mut out = Vec::new(alloc);
    answer_end(alloc, session, lines, &mut out)?;
    put_all(screen, &out)?;
    Ok(())
}
