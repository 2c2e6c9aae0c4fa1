//! Sessions, written.
ghost use Rattle.std.specs.Prelude.{◌≡◌, ◌≤◌, ◌++◌, All, IsUtf8, IfOk, OnOk, OnErr, length, map, string_bytes};
ghost use Rattle.serde_json.specs.View.{view};
ghost use Rattle.frame_text.specs.TypeText.{type_text};
ghost use Rattle.port_values.specs.ValueText.{value_text};
ghost use Rattle.session_form.specs.Form as form;
ghost use Rattle.session_file.specs.Written as spec;

use crate::uses::{Used, inputs_of, place_of};
use elm_base::{Event, Name, NoMemory, PortType, PortValue};
use frame_text::write_type;
use port_literals::a_printed_value_is_its_literal;
use port_texts::given_types_are_ports;
use port_values::print_value;
use serde_json::Value;
use session_form::{delivery_value, input_value, named_value, sheet_value};
use std::alloc::Global;

/// A text of these bytes.
fn string_of(bytes: Vec<u8>) -> String
    requires { IsUtf8 bytes.items }
    ensures { string_bytes result ≡ bytes.items }
{
    String::from_utf8(bytes).unwrap()
}

/// The text of a value.
fn value_string(alloc: Global, value: &PortValue) -> Result<String, NoMemory>
    requires { IsUtf8 (value_text value.now) }
    ensures { IfOk result (λ text. string_bytes text ≡ value_text value.now) }
{
    let mut text = Vec::new(alloc);
    print_value(alloc, value, &mut text)?;
    Ok(string_of(text))
}

/// The text of a type.
fn type_string(alloc: Global, port: &PortType) -> Result<String, NoMemory>
    requires { IsUtf8 (type_text port.now) }
    ensures { IfOk result (λ text. string_bytes text ≡ type_text port.now) }
{
    let mut text = Vec::new(alloc);
    write_type(alloc, port, &mut text)?;
    Ok(string_of(text))
}

fn name_string(alloc: Global, name: &Name) -> Result<String, NoMemory>
    requires { IsUtf8 name.now }
    ensures { IfOk result (λ text. string_bytes text ≡ name.now) }
{
    Ok(string_of(Vec::from_slice(alloc, name.bytes())?))
}

/// An input event as JSON.
fn written_input(alloc: Global, place: usize, value: &PortValue) -> Result<Value, NoMemory>
    requires { IsUtf8 (value_text value.now) }
    ensures { IfOk result (λ made. view made ≡ form.input place (value_text value.now)) }
{
    let text = value_string(alloc, value)?;
    Ok(input_value(alloc, place as u64, text)?)
}

/// An event as JSON.
fn event_value(alloc: Global, inputs: &[Used<'_>], event: &Event) -> Result<Value, NoMemory>
    requires { spec.IsRecorded event.now }
    ensures { IfOk result (λ made. view made ≡ spec.event_data inputs.now event.now) }
{
    given_types_are_ports();
    match event {
        Event::Input { name, value, .. } => {
            written_input(alloc, place_of(name.bytes(), inputs), value)
        }
        Event::Deliver { number } => Ok(delivery_value(alloc, u64::from(*number))?),
    }
}

fn event_values(
    alloc: Global,
    inputs: &[Used<'_>],
    events: &[Event],
) -> Result<Vec<Value>, NoMemory>
    requires { All spec.IsRecorded events.now }
    ensures { IfOk result (λ made. map view made.items
        ≡ map (spec.event_data inputs.now) events.now) }
{
    let mut values = Vec::with_capacity(alloc, events.len())?;
    for event in events {
        values.push(event_value(alloc, inputs, event)?)?;
    }
    Ok(values)
}

/// An input as JSON.
fn named_input(alloc: Global, input: &Used<'_>) -> Result<Value, NoMemory>
    requires { spec.IsNamed input.now }
    ensures { IfOk result (λ made. view made ≡ spec.input_data input.now) }
{
    given_types_are_ports();
    let name = name_string(alloc, input.name())?;
    let port = type_string(alloc, input.port())?;
    Ok(named_value(alloc, name, port)?)
}

fn input_values(alloc: Global, inputs: &[Used<'_>]) -> Result<Vec<Value>, NoMemory>
    requires { All spec.IsNamed inputs.now }
    ensures { IfOk result (λ made. map view made.items ≡ map spec.input_data inputs.now) }
{
    let mut values = Vec::new(alloc);
    for input in inputs {
        values.push(named_input(alloc, input)?)?;
    }
    Ok(values)
}

/// The session as JSON.
fn session_value(alloc: Global, events: &[Event], cursor: u32) -> Result<Value, NoMemory>
    requires { All spec.IsRecorded events.now }
    ensures { IfOk result (λ made. view made ≡ spec.session_data cursor events.now) }
{
    let inputs = inputs_of(alloc, events)?;
    let named = input_values(alloc, &inputs)?;
    let values = event_values(alloc, &inputs, events)?;
    Ok(sheet_value(alloc, u64::from(cursor), values, named)?)
}

/// Appends the compact text of the session: keys in the order of their bytes, inputs in the order of their first use,
/// values as they are printed, no newline at the end. Where memory fails, nothing is appended.
pub fn write(
    alloc: Global,
    events: &[Event],
    cursor: u32,
    out: &mut Vec<u8>,
) -> Result<(), NoMemory>
    requires { spec.Fits cursor events.now }
    ensures written { OnOk result (out.new.items
        ≡ out.old.items ++ spec.session_text cursor events.now) }
    ensures spelled { OnOk result (spec.SpellsIt cursor events.now) }
    ensures kept { OnErr result (out.new.items ≡ out.old.items) }
{
    a_printed_value_is_its_literal();
    given_types_are_ports();
    let value = session_value(alloc, events, cursor)?;
    let text = value.to_vec(alloc)?;
    out.extend_from_slice(&text)?;
    Ok(())
}
