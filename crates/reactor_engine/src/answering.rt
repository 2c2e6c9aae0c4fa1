//! The answers to the lines of a script, as its bytes come.
ghost use Rattle.std.specs.Prelude.{◌≡◌, ◌++◌, List, ℕ, Option, OnOk, OnErr};
ghost use Rattle.script_lines.specs.Lines.{HasNoNewline};
ghost use Rattle.reactor_outside.specs.Shelf.{Files};
ghost use Rattle.reactor_outside.specs.Sink.{with_bytes};
ghost use Rattle.reactor_meaning.specs.Transcript.{answer_text};
ghost use Rattle.reactor_engine.specs.Session.{state_of, Answers};
ghost use Rattle.reactor_engine.specs.Served.{KeepsServed, TakesPiece, WritesAll};

use crate::session::Session;
use elm_base::NoMemory;
use frame_text::write_refusal;
use reactor_meaning::Answer;
use script_lines::{Line, Lines};
use std::alloc::Global;

/// Appends what is written for an answer.
fn write_answer(
    alloc: Global,
    session: &Session,
    answer: &Answer,
    out: &mut Vec<u8>,
) -> Result<(), NoMemory>
    ensures { OnOk result ((files : Files) → out.new.items ≡ out.old.items
        ++ answer_text (state_of session.now files) answer.now) }
{
    match answer {
        Answer::Shown => {
            session.write_frame(alloc, out)?;
            Ok(())
        }
        Answer::Refused(refusal) => {
            write_refusal(alloc, refusal, out)?;
            Ok(())
        }
    }
}

/// Does what a line says, and appends the answer.
fn answer_line(
    alloc: Global,
    session: &mut Session,
    line: Line,
    out: &mut Vec<u8>,
) -> Result<(), NoMemory>
    ensures { OnOk result (Answers session.old line session.new out.old.items out.new.items) }
{
    let answer = session.obey(line)?;
    write_answer(alloc, session, &answer, out)?;
    Ok(())
}

/// Answers each line that a newline has ended.
fn answer_lines(
    alloc: Global,
    session: &mut Session,
    lines: &mut Lines,
    out: &mut Vec<u8>,
) -> Result<(), NoMemory>
    ensures served { OnOk result (KeepsServed
        session.old lines.old out.old.items session.new lines.new out.new.items) }
    ensures open { OnOk result (HasNoNewline lines.new) }
{
    while let Some(line) = lines.next()? {
        answer_line(alloc, session, line, out)?;
    }
    Ok(())
}

/// Takes a piece of the script, and answers each line that has ended.
pub fn answer_piece(
    alloc: Global,
    session: &mut Session,
    lines: &mut Lines,
    piece: &[u8],
    out: &mut Vec<u8>,
) -> Result<(), NoMemory>
    ensures served { OnOk result (TakesPiece piece.now
        session.old lines.old out.old.items session.new lines.new out.new.items) }
    ensures open { OnOk result (HasNoNewline lines.new) }
{
    lines.feed(piece)?;
    answer_lines(alloc, session, lines, out)?;
    Ok(())
}

/// Answers the last line, which no newline ended, if it has a byte.
pub fn answer_end(
    alloc: Global,
    session: &mut Session,
    lines: &mut Lines,
    out: &mut Vec<u8>,
) -> Result<(), NoMemory>
    requires { HasNoNewline lines.old }
    ensures { OnOk result ((taken : Option (List ℕ))
        → WritesAll session.old lines.old (with_bytes out.old.items taken)
        (with_bytes out.new.items taken)) }
{
    match lines.finish()? {
        None => Ok(()),
        Some(line) => {
            answer_line(alloc, session, line, out)?;
            Ok(())
        }
    }
}
