//! The values of literals.
ghost use Rattle.std.specs.Prelude.{◌≡◌, IsTrue, map};
ghost use Rattle.std.specs.Option.{option_map};
ghost use Rattle.elm_base.specs.declared.event.PortValue.TheVariants as value;
ghost use Rattle.elm_base.specs.declared.event.PortType.TheOpen as type;
ghost use Rattle.port_values.specs.Leaves as leaf;
ghost use Rattle.port_literals.specs.Ports.{is_port};
ghost use Rattle.port_literals.specs.Reader as spec;
ghost use Rattle.port_literals.specs.Steps.{reader_field, readers, Reads, ReadsAs};
ghost use Rattle.port_literals.specs.Laws as law;

use crate::forms::{at_label, behind, ends_word};
use crate::leaves::{int, is_unit, quoted, truth};
use crate::parts::{between, bracketed, parts_of};
use crate::scan::fewer;
use elm_base::{Halt, Name, PortType, PortValue, trim_start};
use sqlite_items::{Boxed, Items};
use std::alloc::Global;
use thiserror::Error;

/// A text is no literal of the type.
#[derive(Clone, Copy, Debug, PartialEq, Eq, Error)]
#[error("no literal of the type")]
pub struct BadValue;

/// So many brackets may be open at once.
const MOST_BRACKETS: usize = 64;

/// What stands in the brackets round a value, with the number of brackets that may still be opened.
fn unbracketed<'a>(port: &PortType, room: usize, text: &'a [u8]) -> (usize, &'a [u8])
    ensures { spec.read port.now room text.now
        ≡ spec.form (readers port.now) result.0 result.1.now }
{
    let mut left = room;
    let mut within = text;
    while left > 0 {
        let Some(inside) = bracketed(port, within) else {
            break;
        };
        within = inside;
        left -= 1;
    }
    (left, within)
}

fn unit_value(room: usize, text: &[u8]) -> Result<PortValue, Halt<BadValue>>
    ensures { Reads (spec.form type.Unit room text.now) result }
{
    if room > 0 && is_unit(text) {
        Ok(PortValue::Unit)
    } else {
        Err(Halt::Because(BadValue))
    }
}

fn int_value(text: &[u8]) -> Result<PortValue, Halt<BadValue>>
    ensures { Reads (option_map value.Int (leaf.int_of text.now)) result }
{
    match int(text) {
        Some(number) => Ok(PortValue::Int(number)),
        None => Err(Halt::Because(BadValue)),
    }
}

fn truth_value(text: &[u8]) -> Result<PortValue, Halt<BadValue>>
    ensures { Reads (option_map value.Bool (leaf.truth_of text.now)) result }
{
    match truth(text) {
        Some(truth) => Ok(PortValue::Bool(truth)),
        None => Err(Halt::Because(BadValue)),
    }
}

fn text_value(alloc: Global, text: &[u8]) -> Result<PortValue, Halt<BadValue>>
    ensures { Reads (option_map value.Text (leaf.text_of text.now)) result }
{
    let bytes = quoted(alloc, text)?;
    Ok(PortValue::Text(Name::from_vec(bytes)))
}

/// What stands between the brackets of a type's own, if one more may be opened, cut at its commas.
fn own_parts(
    alloc: Global,
    first: u8,
    last: u8,
    room: usize,
    text: &[u8],
) -> Result<Vec<&[u8]>, Halt<BadValue>>
    ensures { ReadsAs (λ parts. map (λ one. one.now) parts.items)
        (spec.own_parts room (spec.between first last text.now)) result }
{
    if room == 0 {
        return Err(Halt::Because(BadValue));
    }
    match between(first, last, text) {
        Some(inside) => Ok(parts_of(alloc, inside)?),
        None => Err(Halt::Because(BadValue)),
    }
}

/// The value of a text at a type, where at most so many brackets are open at once.
#[cycle(values)]
fn value(
    alloc: Global,
    port: &PortType,
    room: usize,
    text: &[u8],
) -> Result<PortValue, Halt<BadValue>>
    ensures { Reads (spec.read port.now room text.now) result }
{
    let (room, text) = unbracketed(port, room, text);
    match port {
        PortType::Unit => unit_value(room, text),
        PortType::Int => int_value(text),
        PortType::Bool => truth_value(text),
        PortType::Text => text_value(alloc, text),
        PortType::Maybe(inner) => maybe_value(alloc, inner.get(), room, text),
        PortType::List(inner) => list_value(alloc, inner.get(), room, text),
        PortType::Tuple(ports) => tuple_value(alloc, ports.as_slice(), room, text),
        PortType::Fields(ports) => record_value(alloc, ports.as_slice(), room, text),
    }
}

#[cycle(values)]
fn maybe_value(
    alloc: Global,
    port: &PortType,
    room: usize,
    text: &[u8],
) -> Result<PortValue, Halt<BadValue>>
    ensures { Reads (spec.maybe_of (spec.read port.now) room text.now) result }
{
    if text == b"Nothing".as_slice() {
        return Ok(PortValue::Nothing);
    }
    let Some(rest) = behind(b"Just", text) else {
        return Err(Halt::Because(BadValue));
    };
    if !ends_word(rest) {
        return Err(Halt::Because(BadValue));
    }
    let inner = Boxed::new(alloc, value(alloc, port, room, trim_start(rest))?)?;
    Ok(PortValue::Just(inner))
}

#[cycle(values)]
fn list_value(
    alloc: Global,
    port: &PortType,
    room: usize,
    text: &[u8],
) -> Result<PortValue, Halt<BadValue>>
    ensures { Reads (option_map value.List
        (spec.owned (spec.read_each (spec.read port.now)) room
        (spec.between 91 93 text.now))) result }
{
    let parts = own_parts(alloc, b'[', b']', room, text)?;
    let values = each_value(alloc, port, fewer(room), parts.as_slice())?;
    Ok(PortValue::List(Items::from_vec(values)))
}

#[cycle(values)]
fn tuple_value(
    alloc: Global,
    ports: &[PortType],
    room: usize,
    text: &[u8],
) -> Result<PortValue, Halt<BadValue>>
    ensures { Reads (option_map value.Tuple
        (spec.owned (spec.read_all (map spec.read ports.now)) room
        (spec.between 40 41 text.now))) result }
{
    let parts = own_parts(alloc, b'(', b')', room, text)?;
    let values = all_values(alloc, ports, fewer(room), parts.as_slice())?;
    Ok(PortValue::Tuple(Items::from_vec(values)))
}

#[cycle(values)]
fn record_value(
    alloc: Global,
    ports: &[(Name, PortType)],
    room: usize,
    text: &[u8],
) -> Result<PortValue, Halt<BadValue>>
    ensures { Reads (option_map value.Fields
        (spec.owned (spec.whole_fields (map reader_field ports.now)) room
        (spec.between 123 125 text.now))) result }
{
    let parts = own_parts(alloc, b'{', b'}', room, text)?;
    if ports.len() != parts.len() {
        return Err(Halt::Because(BadValue));
    }
    let fields = field_values(alloc, ports, fewer(room), parts.as_slice())?;
    Ok(PortValue::Fields(Items::from_vec(fields)))
}

/// Each text, read at the one type.
#[cycle(values)]
fn each_value(
    alloc: Global,
    port: &PortType,
    room: usize,
    parts: &[&[u8]],
) -> Result<Vec<PortValue>, Halt<BadValue>>
    ensures { ReadsAs (λ values. values.items)
        (spec.read_each (spec.read port.now) room (map (λ one. one.now) parts.now)) result }
{
    let mut values = Vec::new(alloc);
    for part in parts {
        values.push(value(alloc, port, room, part)?)?;
    }
    Ok(values)
}

/// As many texts as types, each read at its own.
#[cycle(values)]
fn all_values(
    alloc: Global,
    ports: &[PortType],
    room: usize,
    parts: &[&[u8]],
) -> Result<Vec<PortValue>, Halt<BadValue>>
    ensures { ReadsAs (λ values. values.items)
        (spec.read_all (map spec.read ports.now) room (map (λ one. one.now) parts.now)) result }
{
    let mut values = Vec::new(alloc);
    let mut left = parts;
    for port in ports {
        let [part, rest @ ..] = left else {
            return Err(Halt::Because(BadValue));
        };
        values.push(value(alloc, port, room, part)?)?;
        left = rest;
    }
    if left.is_empty() {
        Ok(values)
    } else {
        Err(Halt::Because(BadValue))
    }
}

/// The value at each label, read at its type.
#[cycle(values)]
fn field_values(
    alloc: Global,
    ports: &[(Name, PortType)],
    room: usize,
    parts: &[&[u8]],
) -> Result<Vec<(Name, PortValue)>, Halt<BadValue>>
    ensures { ReadsAs (λ fields. fields.items)
        (spec.read_fields (map reader_field ports.now) room
        (map (λ one. one.now) parts.now)) result }
{
    let mut fields = Vec::new(alloc);
    for (label, port) in ports {
        let Some(text) = at_label(label.bytes(), parts) else {
            return Err(Halt::Because(BadValue));
        };
        let label = label.copy(alloc)?;
        fields.push((label, value(alloc, port, room, text)?))?;
    }
    Ok(fields)
}

/// The value of a literal of a port's type. At most 64 brackets are open at once.
pub fn read_value(alloc: Global, text: &[u8], port: &PortType) -> Result<PortValue, Halt<BadValue>>
    requires { IsTrue (is_port port.now) }
    ensures read { law.Reads port.now text.now result }
    ensures refused { law.Refuses port.now text.now result }
{
    value(alloc, port, MOST_BRACKETS, text)
}
