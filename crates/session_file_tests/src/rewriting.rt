//! Sessions that are read, and written again.
use crate::rows::Seen;
use elm_base::{Event, Halt, NoMemory};
use frame_text::write_type;
use port_values::print_value;
use session_file::{Session, a_session_may_be_written_again, read, write};
use std::alloc::Global;

/// What the bytes are.
pub fn outcome(alloc: Global, bytes: &[u8]) -> Result<Seen, NoMemory> {
    match read(alloc, bytes) {
        Ok(session) => Ok(Seen::Session(session.cursor, session.events.len())),
        Err(Halt::Because(_)) => Ok(Seen::Bad),
        Err(Halt::NoMemory) => Err(NoMemory),
    }
}

/// The text of the session that the bytes spell, as it is written. Nothing is written where they spell none.
pub fn rewritten(alloc: Global, bytes: &[u8]) -> Result<Vec<u8>, NoMemory> {
    a_session_may_be_written_again();
    let mut out = Vec::new(alloc);
    match read(alloc, bytes) {
        Ok(session) => {
            write(alloc, &session.events, session.cursor, &mut out)?;
            Ok(out)
        }
        Err(Halt::Because(_)) => Ok(out),
        Err(Halt::NoMemory) => Err(NoMemory),
    }
}

/// Appends what an event is: the name, the type and the value of an input, or the number of a delivery.
fn push_event(alloc: Global, event: &Event, out: &mut Vec<u8>) -> Result<(), NoMemory> {
    match event {
        Event::Input { name, port, value } => {
            out.extend_from_slice(name.bytes())?;
            out.push(b'\n')?;
            write_type(alloc, port, out)?;
            out.push(b'\n')?;
            print_value(alloc, value, out)?;
        }
        Event::Deliver { number } => {
            for byte in number.to_le_bytes() {
                out.push(byte)?;
            }
        }
    }
    out.push(b'\n')?;
    Ok(())
}

/// What the session is that the bytes spell, event by event; nothing where they spell none.
fn described(alloc: Global, bytes: &[u8]) -> Result<Vec<u8>, NoMemory> {
    let mut out = Vec::new(alloc);
    if let Some(session) = found(alloc, bytes)? {
        for byte in session.cursor.to_le_bytes() {
            out.push(byte)?;
        }
        for event in session.events.as_slice() {
            push_event(alloc, event, &mut out)?;
        }
    }
    Ok(out)
}

fn found(alloc: Global, bytes: &[u8]) -> Result<Option<Session>, NoMemory> {
    match read(alloc, bytes) {
        Ok(session) => Ok(Some(session)),
        Err(Halt::Because(_)) => Ok(None),
        Err(Halt::NoMemory) => Err(NoMemory),
    }
}

/// Whether what is written of the session that the bytes spell is read as this session, and written as it was.
pub fn is_same_again(alloc: Global, bytes: &[u8]) -> Result<bool, NoMemory> {
    let first = described(alloc, bytes)?;
    let text = rewritten(alloc, bytes)?;
    let second = described(alloc, &text)?;
    let again = rewritten(alloc, &text)?;
    Ok(!text.is_empty() && first == second && text == again)
}
