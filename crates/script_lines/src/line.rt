//! What a line says.
ghost use Rattle.std.specs.Prelude.{◌≡◌, IfOk};
ghost use Rattle.script_lines.specs.Lines as spec;
ghost use Rattle.script_lines.specs.Reading as reading;

use crate::commands::command_of;
use elm_base::{Command, NoMemory, trim_end, trim_start, without_last};
use std::alloc::Global;

/// How many bytes a line may have before its newline.
pub const MAX_LINE: usize = 65_536;

/// What a line of a script says.
#[derive(Drop)]
pub enum Line {
    /// The line is empty, or a comment: it begins with `#`.
    Nothing,
    Command(Command),
    /// The line is no command, or isn't UTF-8.
    Bad,
    /// More than 65,536 bytes stand before the newline.
    TooLong,
}

/// What these bytes say as a line, which a newline ended or not.
pub fn read_line(alloc: Global, bytes: &[u8], ended: bool) -> Result<Line, NoMemory>
    ensures { IfOk result (λ found. found
        ≡ reading.read_line (record { bytes = bytes.now; ended = ended })) }
{
    if bytes.len() > MAX_LINE {
        return Ok(Line::TooLong);
    }
    read_text(alloc, text_of(bytes, ended))
}

fn read_text(alloc: Global, text: &[u8]) -> Result<Line, NoMemory>
    ensures { IfOk result (λ found. found ≡ reading.read_text text.now) }
{
    match text {
        [] | [b'#', ..] => Ok(Line::Nothing),
        _ => Ok(line_of(command_of(alloc, text)?)),
    }
}

fn line_of(command: Option<Command>) -> Line
    ensures { result ≡ reading.line_of command }
{
    match command {
        None => Line::Bad,
        Some(command) => Line::Command(command),
    }
}

/// What counts of a line: without one carriage return before its newline, and without the spaces at both ends.
fn text_of(bytes: &[u8], ended: bool) -> &[u8]
    ensures { result.now ≡ spec.text_of (record { bytes = bytes.now; ended = ended }) }
{
    if ended {
        trim_end(trim_start(without_return(bytes)))
    } else {
        trim_end(trim_start(bytes))
    }
}

fn without_return(bytes: &[u8]) -> &[u8]
    ensures { result.now ≡ spec.without_return bytes.now }
{
    match without_last(bytes, b'\r') {
        Some(front) => front,
        None => bytes,
    }
}
