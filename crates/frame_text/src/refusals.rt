//! The lines on commands that are refused.
ghost use Rattle.std.specs.Prelude.{◌≡◌, ◌++◌, OnOk, OnErr, codes, decimal, ◌∷◌, []};
ghost use Rattle.frame_text.specs.Faults.{refused};
ghost use Rattle.frame_text.specs.Refusals.{refusal_line};
ghost use Rattle.frame_text.specs.TypeText.{type_text};

use crate::faults::{push_fault, push_refused, push_shelf_failure};
use crate::lines::{end_line, push_number, push_text, push_word};
use crate::types::push_type;
use elm_base::{CommandRefusal, Name, NoMemory, PortType};
use std::alloc::Global;

/// Appends the line that says why a command is refused: `refused`, the name of the refusal, and what it is about.
pub fn write_refusal(
    alloc: Global,
    refusal: &CommandRefusal,
    out: &mut Vec<u8>,
) -> Result<(), NoMemory>
    ensures written { OnOk result (out.new.items ≡ out.old.items ++ refusal_line refusal.now) }
    ensures kept { OnErr result (out.new.items ≡ out.old.items) }
{
    let mut text = Vec::new(alloc);
    push_refusal(refusal, &mut text)?;
    out.extend_from_slice(&text)?;
    Ok(())
}

fn push_refusal(refusal: &CommandRefusal, out: &mut Vec<u8>) -> Result<(), NoMemory>
    ensures { OnOk result (out.new.items ≡ out.old.items ++ refusal_line refusal.now) }
{
    match refusal {
        CommandRefusal::Rewound { cursor, events } => push_places(
            b"Rewound", *cursor, *events, out,
        ),
        CommandRefusal::UnknownInput { name } => push_about(b"UnknownInput", name, out),
        CommandRefusal::BadValue { name, port } => push_bad_value(name, port, out),
        CommandRefusal::NothingPending { number } => push_count(b"NothingPending", *number, out),
        CommandRefusal::TooManyEvents { limit } => push_count(b"TooManyEvents", *limit, out),
        CommandRefusal::RecordTooLarge { limit } => push_count(b"RecordTooLarge", *limit, out),
        CommandRefusal::NoSuchCursor { cursor, events } => {
            push_places(b"NoSuchCursor", *cursor, *events, out)
        }
        CommandRefusal::Shelf { file } => push_shelf_failure(file, out),
        CommandRefusal::MissingFile { file } => push_about(b"MissingFile", file, out),
        CommandRefusal::ProjectRefused { fault } => push_fault(fault, out),
        CommandRefusal::BadSession => push_alone(b"BadSession", out),
        CommandRefusal::InputMissing { event, name } => {
            push_event(b"InputMissing", *event, name, out)
        }
        CommandRefusal::InputType { event, name } => push_event(b"InputType", *event, name, out),
        CommandRefusal::Unsupported => push_alone(b"Unsupported", out),
    }
}

fn push_alone(refusal: &[u8], out: &mut Vec<u8>) -> Result<(), NoMemory>
    ensures { OnOk result (out.new.items ≡ out.old.items ++ refused (refusal.now ∷ [])) }
{
    push_refused(refusal, out)?;
    end_line(out)
}

fn push_about(refusal: &[u8], name: &Name, out: &mut Vec<u8>) -> Result<(), NoMemory>
    ensures { OnOk result (out.new.items ≡ out.old.items ++ refused (refusal.now ∷ name.now ∷ [])) }
{
    push_refused(refusal, out)?;
    push_word(name.bytes(), out)?;
    end_line(out)
}

fn push_count(refusal: &[u8], count: u32, out: &mut Vec<u8>) -> Result<(), NoMemory>
    ensures { OnOk result (out.new.items ≡ out.old.items
        ++ refused (refusal.now ∷ decimal count ∷ [])) }
{
    push_refused(refusal, out)?;
    push_number(count, out)?;
    end_line(out)
}

/// Appends a refusal about a cursor and the number of events.
fn push_places(refusal: &[u8], cursor: u32, events: u32, out: &mut Vec<u8>) -> Result<(), NoMemory>
    ensures { OnOk result (out.new.items ≡ out.old.items
        ++ refused (refusal.now ∷ decimal cursor ∷ decimal events ∷ [])) }
{
    push_refused(refusal, out)?;
    push_number(cursor, out)?;
    push_number(events, out)?;
    end_line(out)
}

/// Appends a refusal about an event and the name of its input.
fn push_event(refusal: &[u8], event: u32, name: &Name, out: &mut Vec<u8>) -> Result<(), NoMemory>
    ensures { OnOk result (out.new.items ≡ out.old.items
        ++ refused (refusal.now ∷ decimal event ∷ name.now ∷ [])) }
{
    push_refused(refusal, out)?;
    push_number(event, out)?;
    push_word(name.bytes(), out)?;
    end_line(out)
}

fn push_bad_value(name: &Name, port: &PortType, out: &mut Vec<u8>) -> Result<(), NoMemory>
    ensures { OnOk result (out.new.items ≡ out.old.items
        ++ refused (codes "BadValue" ∷ name.now ∷ type_text port.now ∷ [])) }
{
    push_refused(b"BadValue", out)?;
    push_word(name.bytes(), out)?;
    push_text(b" ", out)?;
    push_type(port, out)?;
    end_line(out)
}
