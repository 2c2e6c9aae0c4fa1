//! Reads two numbers in a line and a session behind it from standard input, reads the session as often as the first says,
//! writes it as often as the second says, which takes one reading more, and prints how many events and bytes it has.
//! `bench/bench.py sessions` times it.
#![tactic(auto)]

ghost use Rattle.std.specs.Prelude.{IfOk};
ghost use Rattle.session_file.specs.Written.{Fits};

use anyhow::{Context, Result};
use elm_base::{Halt, NoMemory};
use session_file::{BadSession, Session, a_session_may_be_written_again, read, write};
use std::alloc::Global;
use std::io::Read;
use std::str;

/// A session, which may be written again.
fn session_of(alloc: Global, text: &[u8]) -> Result<Session, Halt<BadSession>>
    ensures { IfOk result (λ session. Fits session.cursor session.events.items) }
{
    a_session_may_be_written_again();
    read(alloc, text)
}

/// How many events the session has that is read so often. Without a reading there are none.
fn events_read(alloc: Global, text: &[u8], rounds: u32) -> Result<usize, Halt<BadSession>> {
    let mut events = 0;
    for _ in 0..rounds {
        events = session_of(alloc, text)?.events.len();
    }
    Ok(events)
}

/// How many bytes the session has that is written so often.
fn written_times(alloc: Global, session: &Session, rounds: u32) -> Result<usize, NoMemory>
    requires { Fits session.now.cursor session.now.events.items }
{
    let mut bytes = 0;
    for _ in 0..rounds {
        let mut out = Vec::new(alloc);
        write(alloc, &session.events, session.cursor, &mut out)?;
        bytes = out.len();
    }
    Ok(bytes)
}

/// How many bytes the session has that is read and written so often. Without a writing there are none.
fn bytes_written(alloc: Global, text: &[u8], rounds: u32) -> Result<usize, Halt<BadSession>> {
    if rounds == 0 {
        return Ok(0);
    }
    let session = session_of(alloc, text)?;
    Ok(written_times(alloc, &session, rounds)?)
}

fn number(word: Option<&str>) -> Result<u32> {
    word.context("two numbers are wanted")?
        .parse::<u32>()
        .context("a number is wanted")
}

/// The two numbers of the first line.
fn numbers(line: &[u8]) -> Result<(u32, u32)> {
    let line = str::from_utf8(line).context("the line is no text")?;
    let mut words = line.split_whitespace();
    let reads = number(words.next())?;
    Ok((reads, number(words.next())?))
}

/// The first line, and what stands behind it.
fn cut_line(input: &[u8]) -> (&[u8], &[u8]) {
    match input.iter().position(|byte| *byte == b'\n') {
        Some(at) => (&input[..at], &input[at + 1..]),
        None => (input, b""),
    }
}

fn main(rt: HostRuntime) -> Result<()> {
    let mut input = Vec::new(rt.alloc());
    rt.reader().read_to_end(&mut input)?;
    let (line, text) = cut_line(&input);
    let (reads, writes) = numbers(line)?;
    let read = events_read(rt.alloc(), text, reads);
    let written = bytes_written(rt.alloc(), text, writes);
    match (read, written) {
        (Ok(events), Ok(bytes)) => println!(rt; "{events} events read, {bytes} bytes written")?,
        _ => println!(rt; "no session, or no memory")?,
    }
    Ok(())
}
