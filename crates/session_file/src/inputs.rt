//! The inputs of a session.
ghost use Rattle.std.specs.Prelude.{◌≡◌, ◌||◌, ◌==◌, ◌≤◌, IsTrue, IfOk, length, map};
ghost use Rattle.std.specs.List.{list_all};
ghost use Rattle.elm_base.specs.Letters.{is_name_byte};
ghost use Rattle.serde_json.specs.View.{view};
ghost use Rattle.script_lines.specs.Names as names;
ghost use Rattle.port_literals.specs.Ports.{is_port};
ghost use Rattle.port_texts.specs.PortTexts as text;
ghost use Rattle.session_file.specs.Sessions as spec;
ghost use Rattle.session_file.specs.Answers.{Answers, AnswersAs};

use crate::order::{are_different, in_order};
use crate::session::BadSession;
use elm_base::{Halt, Name, PortType};
use port_texts::{a_text_has_one_type, given_types_are_ports, read_type};
use serde_json::Value;
use session_form::named_of;
use std::alloc::Global;

/// Whether these bytes name an input, as a script's line names it.
fn is_input_name(name: &[u8]) -> bool
    ensures { result ≡ names.is_input_name name.now }
{
    !name.is_empty() && name.len() <= 255 && are_input_bytes(name)
}

fn are_input_bytes(name: &[u8]) -> bool
    ensures { result ≡ list_all (λ byte. is_name_byte byte || byte == 46) name.now }
{
    name.iter().all(|byte| is_input_byte(*byte))
}

fn is_input_byte(byte: u8) -> bool
    ensures { result ≡ (is_name_byte byte || byte == 46) }
{
    byte.is_ascii_alphanumeric() || byte == b'_' || byte == b'\'' || byte == b'.'
}

/// The type with this text.
fn type_in(alloc: Global, written: &[u8]) -> Result<PortType, Halt<BadSession>>
    ensures { Answers (λ port. text.Spells port written.now) result }
{
    match read_type(alloc, written) {
        Ok(port) => Ok(port),
        Err(Halt::Because(_)) => Err(Halt::Because(BadSession)),
        Err(Halt::NoMemory) => Err(Halt::NoMemory),
    }
}

/// An input: its name and its type.
fn input_in(alloc: Global, value: &Value) -> Result<(Name, PortType), Halt<BadSession>>
    ensures read { Answers (spec.InputIs (view value.now)) result }
    ensures port { IfOk result (λ input. IsTrue (is_port input.1)) }
{
    given_types_are_ports();
    let Some((name, written)) = named_of(value) else {
        return Err(Halt::Because(BadSession));
    };
    if !is_input_name(name.as_bytes()) {
        return Err(Halt::Because(BadSession));
    }
    let name = Name::of(alloc, name.as_bytes())?;
    Ok((name, type_in(alloc, written.as_bytes())?))
}

fn inputs_in(alloc: Global, values: &[Value]) -> Result<Vec<(Name, PortType)>, Halt<BadSession>>
    ensures read { AnswersAs (λ inputs. inputs.items)
        (spec.Each spec.InputIs (map view values.now)) result }
    ensures ports { IfOk result (λ inputs. spec.ArePorts inputs.items) }
{
    let mut inputs = Vec::new(alloc);
    for value in values {
        inputs.push(input_in(alloc, value)?)?;
    }
    Ok(inputs)
}

/// The inputs, of which the events make use in order.
pub fn used_inputs(
    alloc: Global,
    values: &[Value],
    events: &[Value],
) -> Result<Vec<(Name, PortType)>, Halt<BadSession>>
    requires { length events.now ≤ spec.max_events }
    ensures read { AnswersAs (λ inputs. inputs.items)
        (spec.InputsAre (map view values.now) (map view events.now)) result }
    ensures ports { IfOk result (λ inputs. spec.ArePorts inputs.items) }
{
    a_text_has_one_type();
    let inputs = inputs_in(alloc, values)?;
    if are_different(&inputs) && in_order(inputs.len(), events) {
        Ok(inputs)
    } else {
        Err(Halt::Because(BadSession))
    }
}
