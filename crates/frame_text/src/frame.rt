//! The frame.
ghost use Rattle.std.specs.Prelude.{◌≡◌, ◌++◌, OnOk, OnErr, codes, decimal, ◌∷◌, []};
ghost use Rattle.std.specs.List.{flat_map};
ghost use Rattle.frame_text.specs.Lines.{line, words};
ghost use Rattle.frame_text.specs.Frame.{frame_text, row_line, out_line, pending_line, note_line, stop_line};

use crate::lines::{end_line, push_number, push_quoted, push_text, push_word};
use crate::parts::Parts;
use elm_base::{Name, NoMemory, trim_end};
use std::alloc::Global;

/// Appends the frame of these parts: `at C of N`, the rows of the screen, what goes out, what waits, what was noted,
/// where the run has stopped, and a point.
pub fn write_frame(alloc: Global, parts: &Parts, out: &mut Vec<u8>) -> Result<(), NoMemory>
    ensures written { OnOk result (out.new.items ≡ out.old.items ++ frame_text parts.now) }
    ensures kept { OnErr result (out.new.items ≡ out.old.items) }
{
    let mut text = Vec::new(alloc);
    push_frame(parts, &mut text)?;
    out.extend_from_slice(&text)?;
    Ok(())
}

fn push_frame(parts: &Parts, out: &mut Vec<u8>) -> Result<(), NoMemory>
    ensures { OnOk result (out.new.items ≡ out.old.items ++ frame_text parts.now) }
{
    push_place(parts.cursor, parts.events, out)?;
    push_rows(parts.rows.as_slice(), out)?;
    push_outs(parts.outs.as_slice(), out)?;
    push_pending(parts.pending.as_slice(), out)?;
    push_notes(b"watch", parts.watches.as_slice(), out)?;
    push_notes(b"log", parts.logs.as_slice(), out)?;
    push_stop(&parts.stop, out)?;
    push_text(b".\n", out)
}

fn push_place(cursor: u32, events: u32, out: &mut Vec<u8>) -> Result<(), NoMemory>
    ensures { OnOk result (out.new.items ≡ out.old.items
        ++ line (words (codes "at" ∷ decimal cursor ∷ codes "of" ∷ decimal events ∷ []))) }
{
    push_text(b"at", out)?;
    push_number(cursor, out)?;
    push_word(b"of", out)?;
    push_number(events, out)?;
    end_line(out)
}

fn push_rows(rows: &[Name], out: &mut Vec<u8>) -> Result<(), NoMemory>
    ensures { OnOk result (out.new.items ≡ out.old.items ++ flat_map row_line rows.now) }
{
    for row in rows {
        push_row(row.bytes(), out)?;
    }
    Ok(())
}

/// Appends the line of a row: a bar, and what is left of the row without the spaces at its end.
fn push_row(row: &[u8], out: &mut Vec<u8>) -> Result<(), NoMemory>
    ensures { OnOk result (out.new.items ≡ out.old.items ++ row_line row.now) }
{
    let left = trim_end(row);
    if left.is_empty() {
        return push_text(b"|\n", out);
    }
    push_text(b"| ", out)?;
    push_text(left, out)?;
    end_line(out)
}

fn push_outs(outs: &[(Name, Name)], out: &mut Vec<u8>) -> Result<(), NoMemory>
    ensures { OnOk result (out.new.items ≡ out.old.items ++ flat_map out_line outs.now) }
{
    for (name, value) in outs {
        push_out(name, value, out)?;
    }
    Ok(())
}

fn push_out(name: &Name, value: &Name, out: &mut Vec<u8>) -> Result<(), NoMemory>
    ensures { OnOk result (out.new.items ≡ out.old.items ++ out_line (name.now, value.now)) }
{
    push_text(b"out", out)?;
    push_word(name.bytes(), out)?;
    push_word(value.bytes(), out)?;
    end_line(out)
}

fn push_pending(pending: &[(u32, u32)], out: &mut Vec<u8>) -> Result<(), NoMemory>
    ensures { OnOk result (out.new.items ≡ out.old.items ++ flat_map pending_line pending.now) }
{
    for (number, count) in pending {
        push_waiting(*number, *count, out)?;
    }
    Ok(())
}

fn push_waiting(number: u32, count: u32, out: &mut Vec<u8>) -> Result<(), NoMemory>
    ensures { OnOk result (out.new.items ≡ out.old.items ++ pending_line (number, count)) }
{
    push_text(b"pending", out)?;
    push_number(number, out)?;
    push_number(count, out)?;
    end_line(out)
}

/// Appends a line for each of the notes of a kind.
fn push_notes(kind: &[u8], notes: &[(Name, Name)], out: &mut Vec<u8>) -> Result<(), NoMemory>
    ensures { OnOk result (out.new.items ≡ out.old.items ++ flat_map (note_line kind.now) notes.now) }
{
    for (tag, text) in notes {
        push_note(kind, tag, text, out)?;
    }
    Ok(())
}

fn push_note(kind: &[u8], tag: &Name, text: &Name, out: &mut Vec<u8>) -> Result<(), NoMemory>
    ensures { OnOk result (out.new.items ≡ out.old.items ++ note_line kind.now (tag.now, text.now)) }
{
    push_text(kind, out)?;
    push_quoted(tag.bytes(), out)?;
    push_word(text.bytes(), out)?;
    end_line(out)
}

fn push_stop(stop: &Option<Name>, out: &mut Vec<u8>) -> Result<(), NoMemory>
    ensures { OnOk result (out.new.items ≡ out.old.items ++ stop_line stop.now) }
{
    match stop {
        None => Ok(()),
        Some(stop) => {
            push_text(b"stopped", out)?;
            push_word(stop.bytes(), out)?;
            end_line(out)
        }
    }
}
