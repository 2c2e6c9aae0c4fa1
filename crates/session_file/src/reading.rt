//! Sessions, read.
ghost use Rattle.std.specs.Prelude.{◌≡◌, ◌≤◌, ℕ, List, IsUtf8, Some, length};
ghost use Rattle.serde_json.specs.Read.{read as read_text};
ghost use Rattle.serde_json.specs.View.{view};
ghost use Rattle.elm_base.specs.declared.event.Event.{Event};
ghost use Rattle.session_file.specs.Sessions as spec;
ghost use Rattle.session_file.specs.Answers.{AnswersAs};

use crate::bounds::is_within;
use crate::events::short_events;
use crate::inputs::used_inputs;
use crate::session::{BadSession, Session};
use elm_base::Halt;
use port_texts::a_text_has_one_type;
use serde_json::Value;
use session_form::{a_sheet_has_one_content, sheet_of};
use std::alloc::Global;

/// The most bytes of a session.
const MAX_BYTES: usize = 134_217_728;

/// What the bytes say as JSON.
fn value_of(alloc: Global, bytes: &[u8]) -> Result<Value, Halt<BadSession>>
    ensures { AnswersAs view (λ found. IsUtf8 bytes.now × (read_text bytes.now ≡ Some found))
        result }
{
    match Value::from_slice(alloc, bytes) {
        Ok(value) => Ok(value),
        Err(error) => {
            if error.is_memory() {
                Err(Halt::NoMemory)
            } else {
                Err(Halt::Because(BadSession))
            }
        }
    }
}

/// The session that JSON says.
fn session_in(alloc: Global, value: &Value) -> Result<Session, Halt<BadSession>>
    ensures { AnswersAs {A = ℕ × List Event} (λ session. (session.cursor, session.events.items))
        (λ said. spec.Spells (view value.now) said.0 said.1) result }
{
    a_sheet_has_one_content();
    a_text_has_one_type();
    let Some(sheet) = sheet_of(value) else {
        return Err(Halt::Because(BadSession));
    };
    if !is_within(&sheet) {
        return Err(Halt::Because(BadSession));
    }
    let inputs = used_inputs(alloc, sheet.inputs, sheet.events)?;
    let events = short_events(alloc, &inputs, sheet.events)?;
    Ok(Session {
        cursor: sheet.cursor as u32,
        events,
    })
}

/// The session that the bytes spell. They are refused exactly where they spell none.
pub fn read(alloc: Global, bytes: &[u8]) -> Result<Session, Halt<BadSession>>
    ensures { AnswersAs {A = ℕ × List Event} (λ session. (session.cursor, session.events.items))
        (λ said. spec.SessionOf bytes.now said.0 said.1) result }
{
    if bytes.len() > MAX_BYTES {
        return Err(Halt::Because(BadSession));
    }
    let value = value_of(alloc, bytes)?;
    session_in(alloc, &value)
}
