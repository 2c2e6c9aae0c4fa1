//! The texts of types, read.
ghost use Rattle.std.specs.Prelude.{◌≡◌, IfOk};
ghost use Rattle.port_texts.specs.Reader as spec;
ghost use Rattle.port_texts.specs.Reader.{Reads, ReadsAs, ReadsWhole};
ghost use Rattle.port_texts.specs.PortTexts as law;

use crate::given::is_given_port;
use crate::head::Head;
use crate::left::Left;
use elm_base::{Halt, Name, NoMemory, PortType};
use frame_text::write_type;
use sqlite_items::{Boxed, Items};
use std::alloc::Global;
use thiserror::Error;

/// No program has a port of a type with this text.
#[derive(Clone, Copy, Debug, PartialEq, Eq, Error)]
#[error("no text of a port's type")]
pub struct BadPortText;

/// A type and the brackets round it open at most so many readings in one another.
const DEPTH: usize = 66;

/// The most bytes of a type's text.
const MAX_TEXT: usize = 4096;

/// The one type in brackets, or the tuple of these.
fn enclosed(mut parts: Vec<PortType>) -> PortType
    ensures { result ≡ spec.enclosed parts.items }
{
    if parts.len() == 1 {
        parts.remove(0)
    } else {
        PortType::Tuple(Items::from_vec(parts))
    }
}

/// The type with whose text a text begins, where at most so many stand in one another.
#[cycle(types)]
fn type_at(alloc: Global, depth: usize, left: &mut Left<'_>) -> Result<PortType, Halt<BadPortText>>
    ensures { Reads (spec.type_at depth left.old) result left.new }
{
    if depth == 0 {
        Err(Halt::Because(BadPortText))
    } else {
        headed_at(alloc, depth - 1, left)
    }
}

/// The type whose parts open at most so many readings in one another.
#[cycle(types)]
fn headed_at(
    alloc: Global,
    depth: usize,
    left: &mut Left<'_>,
) -> Result<PortType, Halt<BadPortText>>
    ensures { Reads (spec.headed (spec.type_at depth) left.old) result left.new }
{
    let head = left.head()?;
    behind_head(alloc, depth, head, left)
}

/// The type with this head.
#[cycle(types)]
fn behind_head(
    alloc: Global,
    depth: usize,
    head: Head,
    left: &mut Left<'_>,
) -> Result<PortType, Halt<BadPortText>>
    ensures { Reads (spec.behind_head (spec.type_at depth) head left.old) result left.new }
{
    match head {
        Head::Unit => Ok(PortType::Unit),
        Head::Int => Ok(PortType::Int),
        Head::Bool => Ok(PortType::Bool),
        Head::Text => Ok(PortType::Text),
        Head::Maybe => Ok(PortType::Maybe(boxed_at(alloc, depth, left)?)),
        Head::List => Ok(PortType::List(boxed_at(alloc, depth, left)?)),
        Head::Parts => Ok(enclosed(parts_at(alloc, depth, left)?)),
        Head::NoFields => Ok(PortType::Fields(Items::new(alloc))),
        Head::Fields => {
            let fields = fields_at(alloc, depth, left)?;
            Ok(PortType::Fields(Items::from_vec(fields)))
        }
    }
}

#[cycle(types)]
fn boxed_at(
    alloc: Global,
    depth: usize,
    left: &mut Left<'_>,
) -> Result<Boxed<PortType>, Halt<BadPortText>>
    ensures { Reads (spec.type_at depth left.old) result left.new }
{
    let inner = type_at(alloc, depth, left)?;
    Ok(Boxed::new(alloc, inner)?)
}

/// Types with commas between them, to the closing bracket.
#[cycle(types)]
fn parts_at(
    alloc: Global,
    depth: usize,
    left: &mut Left<'_>,
) -> Result<Vec<PortType>, Halt<BadPortText>>
    ensures { ReadsAs (λ parts. parts.items) (spec.parts (spec.type_at depth) left.old) result left.new }
{
    let mut parts = Vec::new(alloc);
    parts.push(type_at(alloc, depth, left)?)?;
    for _turn in 0..left.len() {
        if !left.passes(b",") {
            break;
        }
        parts.push(type_at(alloc, depth, left)?)?;
    }
    left.expect(b")")?;
    Ok(parts)
}

/// Fields with commas between them, to the closing brace.
#[cycle(types)]
fn fields_at(
    alloc: Global,
    depth: usize,
    left: &mut Left<'_>,
) -> Result<Vec<(Name, PortType)>, Halt<BadPortText>>
    ensures { ReadsAs (λ fields. fields.items) (spec.fields (spec.type_at depth) left.old) result left.new }
{
    let mut fields = Vec::new(alloc);
    fields.push(field_at(alloc, depth, left)?)?;
    for _turn in 0..left.len() {
        if !left.passes(b", ") {
            break;
        }
        fields.push(field_at(alloc, depth, left)?)?;
    }
    left.expect(b" }")?;
    Ok(fields)
}

/// A label and its type.
#[cycle(types)]
fn field_at(
    alloc: Global,
    depth: usize,
    left: &mut Left<'_>,
) -> Result<(Name, PortType), Halt<BadPortText>>
    ensures { Reads (spec.field (spec.type_at depth) left.old) result left.new }
{
    let label = left.word(alloc)?;
    left.expect(b" : ")?;
    let port = type_at(alloc, depth, left)?;
    Ok((label, port))
}

/// Whether the type has this text.
fn has_text(alloc: Global, port: &PortType, text: &[u8]) -> Result<bool, NoMemory>
    ensures { IfOk result (λ has. has ≡ spec.has_text port.now text.now) }
{
    let mut own = Vec::new(alloc);
    write_type(alloc, port, &mut own)?;
    Ok(own.as_slice() == text)
}

fn is_short(text: &[u8]) -> bool
    ensures { result ≡ spec.is_short text.now }
{
    text.len() <= MAX_TEXT
}

/// Whether a port of a program may have the type, and the type has this text.
fn is_spelled(alloc: Global, port: &PortType, text: &[u8]) -> Result<bool, NoMemory>
    ensures { IfOk result (λ is. is ≡ spec.is_spelled port.now text.now) }
{
    let has = has_text(alloc, port, text)?;
    Ok(has && is_given_port(port) && is_short(text))
}

fn where_so(is: bool, port: PortType) -> Result<PortType, Halt<BadPortText>>
    ensures { ReadsWhole (spec.where_so is port) result }
{
    if is {
        Ok(port)
    } else {
        Err(Halt::Because(BadPortText))
    }
}

/// The type, where it is spelled by the text.
fn spelled(alloc: Global, port: PortType, text: &[u8]) -> Result<PortType, Halt<BadPortText>>
    ensures { ReadsWhole (spec.spelled text.now port) result }
{
    let is = is_spelled(alloc, &port, text)?;
    where_so(is, port)
}

fn read(alloc: Global, text: &[u8]) -> Result<PortType, Halt<BadPortText>>
    ensures { ReadsWhole (spec.read text.now) result }
{
    let mut left = Left::new(text);
    let port = type_at(alloc, DEPTH, &mut left)?;
    spelled(alloc, port, text)
}

/// The type with this text that a port of a program may have.
pub fn read_type(alloc: Global, text: &[u8]) -> Result<PortType, Halt<BadPortText>>
    ensures read { IfOk result (λ port. law.Spells port text.now) }
    ensures refused { law.Refuses text.now result }
{
    read(alloc, text)
}
