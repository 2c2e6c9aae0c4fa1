//! The parts of a text between commas, and what stands between brackets.
ghost use Rattle.std.specs.Prelude.{◌≡◌, ◌<◌, ◌+◌, IfOk, take, drop, length, map};
ghost use Rattle.std.specs.Option.{option_copied};
ghost use Rattle.elm_base.specs.declared.event.PortType.{out-PortType};
ghost use Rattle.port_literals.specs.Parts as spec;
ghost use Rattle.port_literals.specs.Reader as reader;

use crate::scan::comma;
use elm_base::{NoMemory, PortType, trim_end, trim_start, without_last};
use std::alloc::Global;

/// A text without the spaces at its ends.
fn trim(text: &[u8]) -> &[u8]
    ensures { result.now ≡ spec.trim text.now }
{
    trim_end(trim_start(text))
}

/// A part that ends at a comma.
fn part_before(text: &[u8], at: usize) -> &[u8]
    requires { at < length text.now }
    ensures { result.now ≡ spec.trim (take at text.now) }
{
    trim(&text[..at])
}

/// What follows a comma.
fn behind_comma(text: &[u8], at: usize) -> &[u8]
    requires { at < length text.now }
    ensures { result.now ≡ drop (at + 1) text.now }
{
    &text[at + 1..]
}

/// The parts of a text between the commas outside brackets and texts, without the spaces about them.
pub fn parts_of(alloc: Global, text: &[u8]) -> Result<Vec<&[u8]>, NoMemory>
    ensures { IfOk result (λ parts. map (λ part. part.now) parts.items ≡ spec.parts_of text.now) }
{
    let mut parts = Vec::new(alloc);
    if trim_start(text).is_empty() {
        return Ok(parts);
    }
    let mut left = text;
    let mut at = comma(left);
    while at < left.len() {
        parts.push(part_before(left, at))?;
        left = behind_comma(left, at);
        at = comma(left);
    }
    parts.push(trim(left))?;
    Ok(parts)
}

/// The text before its last byte, where that is this one.
fn before_last(last: u8, text: &[u8]) -> Option<&[u8]>
    ensures { option_copied result ≡ reader.before_last last text.now }
{
    match without_last(text, last) {
        Some(front) => Some(front),
        None => None,
    }
}

/// The text between a first byte and a last one.
pub fn between(first: u8, last: u8, text: &[u8]) -> Option<&[u8]>
    ensures { option_copied result ≡ reader.between first last text.now }
{
    let [byte, rest @ ..] = text else {
        return None;
    };
    if *byte != first {
        return None;
    }
    before_last(last, rest)
}

/// Whether brackets with this between them are the type's own: they hold nothing or several parts.
fn are_own(port: &PortType, inside: &[u8]) -> bool
    ensures { result ≡ reader.are_own (out-PortType port.now) (spec.parts_of inside.now) }
{
    match port {
        PortType::Unit => trim_start(inside).is_empty(),
        PortType::Tuple(_) => comma(inside) < inside.len(),
        _ => false,
    }
}

/// What stands in the brackets round a value, where there are such.
pub fn bracketed<'a>(port: &PortType, text: &'a [u8]) -> Option<&'a [u8]>
    ensures { option_copied result ≡ reader.bracketed (out-PortType port.now) text.now }
{
    let Some(inside) = between(b'(', b')', text) else {
        return None;
    };
    if are_own(port, inside) {
        None
    } else {
        Some(trim(inside))
    }
}
