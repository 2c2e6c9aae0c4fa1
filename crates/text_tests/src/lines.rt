//! Lines of scripts that come in pieces.
ghost use Rattle.script_lines.specs.Lines.{HasNoNewline};

use crate::same;
use elm_base::{Command, NoMemory};
use script_lines::{Line, Lines};
use std::alloc::Global;
use std::fmt::Write;
use std::process::Abort;
use std::str;

fn put_bytes(bytes: &[u8], out: &mut String) -> Result<(), NoMemory> {
    out.push_str(str::from_utf8(bytes).unwrap_or("?"))?;
    Ok(())
}

fn put_number(name: &str, number: u32, out: &mut String) -> Result<(), NoMemory> {
    write!(out, "{name} {number}")?;
    Ok(())
}

fn put_words(name: &str, first: &[u8], second: &[u8], out: &mut String) -> Result<(), NoMemory> {
    out.push_str(name)?;
    out.push('|')?;
    put_bytes(first, out)?;
    out.push('|')?;
    put_bytes(second, out)
}

/// A command as a test writes it: its name, and what it takes.
fn put_command(command: &Command, out: &mut String) -> Result<(), NoMemory> {
    match command {
        Command::Input { name, text } => put_words("input", name.bytes(), text.bytes(), out),
        Command::Deliver { number } => put_number("deliver", *number, out),
        Command::Goto { cursor } => put_number("goto", *cursor, out),
        Command::Latest => put_words("latest", b"", b"", out),
        Command::Resume => put_words("resume", b"", b"", out),
        Command::Swap { project } => put_words("swap", project.bytes(), b"", out),
        Command::Save { file } => put_words("save", file.bytes(), b"", out),
        Command::Load { file } => put_words("load", file.bytes(), b"", out),
        Command::Show => put_words("show", b"", b"", out),
        Command::Quit => put_words("quit", b"", b"", out),
    }
}

/// What a test writes.
trait Put {
    fn put(&self, out: &mut String) -> Result<(), NoMemory>;
}

impl Put for Line {
    fn put(&self, out: &mut String) -> Result<(), NoMemory> {
        match self {
            Line::Nothing => out.push_str("nothing;")?,
            Line::Bad => out.push_str("bad;")?,
            Line::TooLong => out.push_str("too long;")?,
            Line::Command(command) => {
                put_command(command, out)?;
                out.push(';')?;
            }
        }
        Ok(())
    }
}

fn put_owned<T: Put + Drop>(value: T, out: &mut String) -> Result<(), NoMemory> {
    value.put(out)
}

// Whether something was found, which is written.
fn put_found<T: Put + Drop>(found: Option<T>, out: &mut String) -> Result<bool, NoMemory> {
    match found {
        Some(value) => {
            put_owned(value, out)?;
            Ok(true)
        }
        None => Ok(false),
    }
}

// What each line says that has its newline.
fn put_whole_lines(lines: &mut Lines, out: &mut String) -> Result<(), NoMemory> {
    for _ in 0..u64::MAX {
        let more = put_found(lines.next()?, out)?;
        if !more {
            return Ok(());
        }
    }
    Ok(())
}

// What the last line says, which has no newline.
fn put_rest(lines: &mut Lines, out: &mut String) -> Result<(), NoMemory>
    requires { HasNoNewline lines.old }
{
    put_found(lines.finish()?, out)?;
    Ok(())
}

// No whole line is left before the last one; one that were would be told in its place.
fn put_last_line(lines: &mut Lines, out: &mut String) -> Result<(), NoMemory> {
    match lines.next()? {
        Some(line) => put_owned(line, out),
        None => put_rest(lines, out),
    }
}

fn put_lines(
    lines: &mut Lines,
    script: &[u8],
    size: usize,
    out: &mut String,
) -> Result<(), NoMemory> {
    for piece in script.chunks(size.max(1)) {
        lines.feed(piece)?;
        put_whole_lines(lines, out)?;
    }
    put_last_line(lines, out)
}

/// What the lines of a script say that is fed in pieces of this size, each behind a semicolon.
pub fn readings(alloc: Global, script: &[u8], size: usize) -> Result<String, NoMemory> {
    let mut out = String::new(alloc);
    let mut lines = Lines::new(alloc)?;
    put_lines(&mut lines, script, size, &mut out)?;
    Ok(out)
}

/// The lines of a script say the same in pieces of any size.
pub fn check_pieces(
    rt: &impl Abort,
    alloc: Global,
    script: &[u8],
    wanted: &str,
    label: &str,
) -> Result<(), NoMemory> {
    for size in [1, 3, 4096] {
        let said = readings(alloc, script, size)?;
        same(rt, (size, said.as_str()), (size, wanted), label);
    }
    Ok(())
}

/// Scripts say what stands beside them.
pub fn check_scripts(
    rt: &impl Abort,
    alloc: Global,
    rows: &[(&str, &str)],
) -> Result<(), NoMemory> {
    for (script, wanted) in rows {
        check_pieces(rt, alloc, script.as_bytes(), wanted, script)?;
    }
    Ok(())
}

/// Scripts with what their lines say.
const SCRIPTS: [(&str, &str); 17] = [
    ("", ""),
    ("\n", "nothing;"),
    ("   \n", "nothing;"),
    ("\r\n", "nothing;"),
    ("\r", "bad;"),
    ("#\n#x\n  # show\n", "nothing;nothing;nothing;"),
    ("show\nlatest\nresume\n", "show||;latest||;resume||;"),
    ("show\n\n\nquit", "show||;nothing;nothing;quit||;"),
    ("  show  \n", "show||;"),
    ("show\r\n", "show||;"),
    ("show \r\n", "show||;"),
    ("show\r\r\n", "bad;"),
    ("sh\row\n", "bad;"),
    ("show\r", "bad;"),
    ("show\t\n", "bad;"),
    ("input p a\r b\r\n", "input|p|a\r b;"),
    ("jump 3\nshow\n", "bad;show||;"),
];

#[test]
fn lines_in_pieces(rt: HostRuntime) -> Result<(), NoMemory> {
    check_scripts(&rt, rt.alloc(), &SCRIPTS)
}

// Letters, until there are so many bytes.
fn put_letters(line: &mut Vec<u8>, count: usize) -> Result<(), NoMemory> {
    for _ in line.len()..count {
        line.push(b'x')?;
    }
    Ok(())
}

// A line of so many bytes in all: a front, then letters, then a back.
fn long_line(alloc: Global, front: &str, count: usize, back: &str) -> Result<Vec<u8>, NoMemory> {
    let mut line = front.as_bytes().to_vec(alloc)?;
    put_letters(&mut line, count)?;
    line.extend_from_slice(back.as_bytes())?;
    Ok(line)
}

/// The front of a line, how many bytes it has up to its back, its back, and what it says.
const LONG: [(&str, usize, &str, &str); 8] = [
    ("#", 65_536, "\n", "nothing;"),
    ("#", 65_537, "\n", "too long;"),
    ("#", 65_536, "", "nothing;"),
    ("#", 65_537, "", "too long;"),
    ("#", 65_535, "\r\n", "nothing;"),
    ("#", 65_536, "\r\n", "too long;"),
    ("show\n#", 65_542, "\nquit\n", "show||;too long;quit||;"),
    ("", 100_000, "\nquit\n", "too long;quit||;"),
];

#[test]
fn long_lines(rt: HostRuntime) -> Result<(), NoMemory> {
    for (front, count, back, wanted) in LONG {
        let script = long_line(rt.alloc(), front, count, back)?;
        check_pieces(&rt, rt.alloc(), &script, wanted, wanted)?;
    }
    Ok(())
}
