//! The bounds of a session.
ghost use Rattle.std.specs.Prelude.{◌≡◌, ◌≤◌, ◌↔◌, IsTrue, IfOk, length, nat_le};
ghost use Rattle.session_file.specs.Sessions as spec;

use elm_base::{Event, NoMemory};
use port_values::print_value;
use session_form::Sheet;
use std::alloc::Global;

/// The most inputs: five devices and 256 ports.
const MAX_INPUTS: usize = 261;

/// The most events.
const MAX_EVENTS: usize = 1_000_000;

/// The most bytes of all values together, as they are printed.
const MAX_PRINTED: usize = 16_777_216;

/// Whether there aren't too many inputs or events, and the cursor is at most the number of events.
pub fn is_within(sheet: &Sheet<'_>) -> bool
    ensures { IsTrue result ↔ ((length sheet.now.inputs.now ≤ spec.max_inputs)
        × (length sheet.now.events.now ≤ spec.max_events)
        × (sheet.now.cursor ≤ length sheet.now.events.now)) }
{
    sheet.inputs.len() <= MAX_INPUTS
        && sheet.events.len() <= MAX_EVENTS
        && sheet.cursor <= sheet.events.len() as u64
}

/// How many bytes the value of an event has, as it is printed.
fn printed_of(alloc: Global, event: &Event) -> Result<usize, NoMemory>
    ensures { IfOk result (λ size. size ≡ spec.printed_of event.now) }
{
    match event {
        Event::Deliver { .. } => Ok(0),
        Event::Input { value, .. } => {
            let mut text = Vec::new(alloc);
            print_value(alloc, value, &mut text)?;
            Ok(text.len())
        }
    }
}

/// Whether the values of the events aren't too long together.
pub fn are_short(alloc: Global, events: &[Event]) -> Result<bool, NoMemory>
    ensures { IfOk result (λ are. are ≡ nat_le (spec.printed_size events.now) spec.max_printed) }
{
    let mut room = MAX_PRINTED;
    for event in events {
        let size = printed_of(alloc, event)?;
        if size > room {
            return Ok(false);
        }
        room -= size;
    }
    Ok(true)
}
