//! The events of a session.
ghost use Rattle.std.specs.Prelude.{◌≡◌, ◌≤◌, IsTrue, IfOk, nat_le, map};
ghost use Rattle.serde_json.specs.View.{view};
ghost use Rattle.port_values.specs.Literals.{IsLiteral};
ghost use Rattle.port_literals.specs.Ports.{is_port};
ghost use Rattle.session_file.specs.Sessions as spec;
ghost use Rattle.session_file.specs.Answers.{Answers, AnswersAs};

use crate::bounds::are_short;
use crate::copies::copy_type;
use crate::session::BadSession;
use elm_base::{Event, Halt, Name, PortType, PortValue};
use port_literals::{a_literal_has_one_value, read_value};
use serde_json::Value;
use session_form::{delivery_of, input_of};
use sqlite_items::at;
use std::alloc::Global;

/// The greatest number of a delivery.
const MAX_NUMBER: u64 = 999_999_999;

/// The value of a literal.
fn value_in(alloc: Global, written: &[u8], port: &PortType) -> Result<PortValue, Halt<BadSession>>
    requires { IsTrue (is_port port.now) }
    ensures { Answers (λ value. IsLiteral port.now value written.now) result }
{
    match read_value(alloc, written, port) {
        Ok(value) => Ok(value),
        Err(Halt::Because(_)) => Err(Halt::Because(BadSession)),
        Err(Halt::NoMemory) => Err(Halt::NoMemory),
    }
}

/// The event of an input at its place, with the value of a literal.
fn input_event(
    alloc: Global,
    inputs: &[(Name, PortType)],
    place: u64,
    written: &[u8],
) -> Result<Event, Halt<BadSession>>
    requires { spec.ArePorts inputs.now }
    ensures { Answers (spec.IsInputAt inputs.now place written.now) result }
{
    let Some((name, port)) = at(inputs, place as usize) else {
        return Err(Halt::Because(BadSession));
    };
    let name = name.copy(alloc)?;
    let own = copy_type(alloc, port)?;
    Ok(Event::Input {
        name,
        port: own,
        value: value_in(alloc, written, port)?,
    })
}

fn delivery(number: u64) -> Result<Event, Halt<BadSession>>
    ensures { Answers (spec.IsDelivery number) result }
{
    if number <= MAX_NUMBER {
        Ok(Event::Deliver {
            number: number as u32,
        })
    } else {
        Err(Halt::Because(BadSession))
    }
}

fn event_in(
    alloc: Global,
    inputs: &[(Name, PortType)],
    value: &Value,
) -> Result<Event, Halt<BadSession>>
    requires { spec.ArePorts inputs.now }
    ensures { Answers (spec.EventIs inputs.now (view value.now)) result }
{
    if let Some(number) = delivery_of(value) {
        return delivery(number);
    }
    match input_of(value) {
        Some((place, written)) => input_event(alloc, inputs, place, written.as_bytes()),
        None => Err(Halt::Because(BadSession)),
    }
}

fn events_in(
    alloc: Global,
    inputs: &[(Name, PortType)],
    values: &[Value],
) -> Result<Vec<Event>, Halt<BadSession>>
    requires { spec.ArePorts inputs.now }
    ensures { AnswersAs (λ events. events.items)
        (spec.Each (spec.EventIs inputs.now) (map view values.now)) result }
{
    let mut events = Vec::new(alloc);
    for value in values {
        events.push(event_in(alloc, inputs, value)?)?;
    }
    Ok(events)
}

/// The events, whose values aren't too long together.
pub fn short_events(
    alloc: Global,
    inputs: &[(Name, PortType)],
    values: &[Value],
) -> Result<Vec<Event>, Halt<BadSession>>
    requires { spec.ArePorts inputs.now }
    ensures { AnswersAs (λ events. events.items)
        (spec.EventsAre inputs.now (map view values.now)) result }
{
    a_literal_has_one_value();
    let events = events_in(alloc, inputs, values)?;
    if are_short(alloc, &events)? {
        Ok(events)
    } else {
        Err(Halt::Because(BadSession))
    }
}
