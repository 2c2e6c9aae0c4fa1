//! The lines of a script whose bytes come in pieces.
ghost use Rattle.std.specs.Prelude.{◌≡◌, ◌++◌, ◌∷◌, ◌≤◌, ◌+◌, ◌↔◌, [], length, take, drop, IsTrue, IfOk, OnOk, OnErr};
ghost use Rattle.script_lines.specs.Lines.{HasNoNewline, shortened};
ghost use Rattle.script_lines.specs.Kept.{shortened_within, unfinished};
ghost use Rattle.script_lines.specs.Reading.{HandsOut, HandsOutLast, SaysTheSame, SaysFirst, readings, said};

use crate::bytes::cut;
use crate::line::{Line, MAX_LINE, read_line};
use elm_base::NoMemory;
use std::alloc::Global;
use std::marker::Model;

/// How many bytes are kept of a line: one more than a line may have, so that one that is too long shows.
const MAX_KEPT: usize = MAX_LINE + 1;

/// The bytes of a script that were fed and not handed out as lines yet. Of each line at most 65,537 bytes are kept.
/// Contracts see the list of these bytes.
#[derive(Drop)]
pub struct Lines {
    alloc: Global,
    bytes: Vec<u8>,
    /// How many of the bytes were handed out.
    handed_out: usize,
    /// No newline is known to stand in the others, so that a long line isn't searched again with each piece.
    is_open: bool,
}

impl Model for Lines {
    ghost use Rattle.std.specs.Prelude.{List, ℕ, ◌≡◌, ◌≤◌, IsTrue, drop, length};
    ghost use Rattle.script_lines.specs.Lines.{HasNoNewline, shortened};

    ghost Value = { List ℕ };

    ghost view = { λ lines. drop lines.handed_out lines.bytes.items };

    ghost invariant = { λ lines.
        (lines.handed_out ≤ length lines.bytes.items)
        × (shortened (drop lines.handed_out lines.bytes.items) ≡ drop lines.handed_out lines.bytes.items)
        × (IsTrue lines.is_open → HasNoNewline (drop lines.handed_out lines.bytes.items)) };
}

impl Lines {
    /// No bytes so far.
    pub fn new(alloc: Global) -> Result<Lines, NoMemory>
        ensures { IfOk result (λ lines. lines ≡ []) }
    {
        Ok(Lines {
            alloc,
            bytes: Vec::new(alloc),
            handed_out: 0,
            is_open: true,
        })
    }

    /// Takes the next bytes of the script.
    pub fn feed(&mut self, piece: &[u8]) -> Result<(), NoMemory>
        ensures fed { OnOk result (self.new ≡ shortened (self.old ++ piece.now)) }
        ensures says { OnOk result (SaysTheSame self.new (self.old ++ piece.now)) }
        ensures kept { OnErr result (self.new ≡ self.old) }
    {
        give_back(&mut self.bytes, self.handed_out);
        self.handed_out = 0;
        append_short(self.alloc, &mut self.bytes, piece)?;
        self.is_open = stays_open(self.is_open, piece);
        Ok(())
    }

    /// Hands out the next line that a newline ended, if there is one.
    pub fn next(&mut self) -> Result<Option<Line>, NoMemory>
        ensures next { IfOk result (λ found. HandsOut self.old self.new found) }
        ensures says { IfOk result (λ found. SaysFirst self.old found self.new) }
        ensures kept { OnErr result (self.new ≡ self.old) }
    {
        if self.is_open {
            return Ok(None);
        }
        let Some((line, _)) = cut(left_of(self.bytes.as_slice(), self.handed_out), b'\n') else {
            self.is_open = true;
            return Ok(None);
        };
        let length = line.len();
        let found = read_line(self.alloc, line, true)?;
        self.handed_out += length + 1;
        Ok(Some(found))
    }

    /// Hands out the last line, which no newline ended, if it has a byte.
    pub fn finish(&mut self) -> Result<Option<Line>, NoMemory>
        requires { HasNoNewline self.old }
        ensures last { IfOk result (λ found. HandsOutLast self.old self.new found) }
        ensures says { IfOk result (λ found. readings self.old ≡ said found) }
        ensures kept { OnErr result (self.new ≡ self.old) }
    {
        let line = left_of(self.bytes.as_slice(), self.handed_out);
        if line.is_empty() {
            return Ok(None);
        }
        let found = read_line(self.alloc, line, false)?;
        self.handed_out = self.bytes.len();
        Ok(Some(found))
    }
}

/// Whether no newline is known to stand in what was left before, and none does in the piece.
fn stays_open(is_open: bool, piece: &[u8]) -> bool
    ensures { IsTrue result → (IsTrue is_open × HasNoNewline piece.now) }
{
    is_open && cut(piece, b'\n').is_none()
}

/// The bytes behind the first ones, as many as were handed out.
fn left_of(bytes: &[u8], handed_out: usize) -> &[u8]
    requires { handed_out ≤ length bytes.now }
    ensures { result.now ≡ drop handed_out bytes.now }
{
    &bytes[handed_out..]
}

/// Gives back the first bytes.
fn give_back(bytes: &mut Vec<u8>, count: usize)
    requires { count ≤ length bytes.old.items }
    ensures { bytes.new.items ≡ drop count bytes.old.items }
{
    if count == 0 {
        return;
    }
    let left = bytes.len() - count;
    bytes.copy_within(count.., 0);
    bytes.truncate(left);
}

/// Appends a piece to a script of whose lines no more is kept than is to be, and keeps no more of its lines either.
fn append_short(alloc: Global, bytes: &mut Vec<u8>, piece: &[u8]) -> Result<(), NoMemory>
    requires { shortened bytes.old.items ≡ bytes.old.items }
    ensures ok { OnOk result (bytes.new.items ≡ shortened (bytes.old.items ++ piece.now)) }
    ensures says { OnOk result (SaysTheSame bytes.new.items (bytes.old.items ++ piece.now)) }
    ensures short { shortened bytes.new.items ≡ bytes.new.items }
    ensures kept { OnErr result (bytes.new.items ≡ bytes.old.items) }
{
    if fits(bytes.len(), piece.len()) {
        // No line can have too many bytes.
        bytes.extend_from_slice(piece)?;
        return Ok(());
    }
    let room = MAX_KEPT - unfinished_len(bytes.as_slice());
    let mut kept = Vec::new(alloc);
    push_short(room, piece, &mut kept)?;
    bytes.extend_from_slice(&kept)?;
    Ok(())
}

/// Whether so many bytes, and so many more, are as many as are kept of a line.
fn fits(count: usize, more: usize) -> bool
    ensures { IsTrue result ↔ (count + more ≤ 65537) }
{
    count <= MAX_KEPT && more <= MAX_KEPT - count
}

/// How many bytes follow the last newline.
fn unfinished_len(bytes: &[u8]) -> usize
    ensures { result ≡ length (unfinished bytes.now) }
{
    let mut bytes = bytes;
    while let Some((_, rest)) = cut(bytes, b'\n') {
        bytes = rest;
    }
    bytes.len()
}

/// Appends a piece, of whose first line so many bytes are kept, and of its others as many as of any line.
fn push_short(room: usize, piece: &[u8], out: &mut Vec<u8>) -> Result<(), NoMemory>
    ensures { OnOk result (out.new.items ≡ out.old.items ++ shortened_within room piece.now) }
{
    let mut room = room;
    let mut piece = piece;
    while let Some((line, rest)) = cut(piece, b'\n') {
        push_front(line, room, out)?;
        out.push(b'\n')?;
        room = MAX_KEPT;
        piece = rest;
    }
    push_front(piece, room, out)?;
    Ok(())
}

/// Appends the first bytes of a text, as many as there is room for.
fn push_front(text: &[u8], room: usize, out: &mut Vec<u8>) -> Result<(), NoMemory>
    ensures { OnOk result (out.new.items ≡ out.old.items ++ take room text.now) }
{
    let count = text.len().min(room);
    out.extend_from_slice(&text[..count])?;
    Ok(())
}
