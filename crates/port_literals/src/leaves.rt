//! The literals without parts.
ghost use Rattle.std.specs.Prelude.{◌≡◌, ◌≢◌, ◌<◌, IfSome, IfNone, Some, None, false, length, slice_index};
ghost use Rattle.std.specs.Str.{is_utf8};
ghost use Rattle.port_values.specs.Leaves as leaf;
ghost use Rattle.port_literals.specs.Steps as step;
ghost use Rattle.port_literals.specs.Steps.{ReadsAs};

use crate::value::BadValue;
use elm_base::{Halt, trim_start};
use std::alloc::Global;
use std::str;

/// The integer that a text spells, if it spells one within 64 bits.
pub fn int(text: &[u8]) -> Option<i64>
    ensures { result ≡ leaf.int_of text.now }
{
    // The reader of std takes a plus too.
    if !text.is_empty() && text[0] == b'+' {
        return None;
    }
    match str::from_utf8(text) {
        Ok(text) => parsed(text),
        Err(_) => None,
    }
}

fn parsed(text: &str) -> Option<i64>
    requires { slice_index text.now 0 ≢ 43 }
    ensures { result ≡ leaf.int_of text.now }
{
    text.parse::<i64>().ok()
}

/// Whether a text is the literal of the unit.
pub fn is_unit(text: &[u8]) -> bool
    ensures { result ≡ leaf.is_unit text.now }
{
    let [first, rest @ ..] = text else {
        return false;
    };
    *first == b'(' && trim_start(rest) == b")".as_slice()
}

/// The truth that a word stands for.
pub fn truth(word: &[u8]) -> Option<bool>
    ensures { result ≡ leaf.truth_of word.now }
{
    if word == b"True".as_slice() {
        Some(true)
    } else if word == b"False".as_slice() {
        Some(false)
    } else {
        None
    }
}

/// The byte for which one stands behind a backslash.
fn escape_of(byte: u8) -> Option<u8>
    ensures { result ≡ leaf.escape_of byte }
{
    match byte {
        b'"' => Some(b'"'),
        b'\'' => Some(b'\''),
        b'\\' => Some(b'\\'),
        b'n' => Some(b'\n'),
        b't' => Some(b'\t'),
        b'r' => Some(b'\r'),
        _ => None,
    }
}

/// The byte that is escaped at the front of a text, and what follows it.
fn escape_and(text: &[u8]) -> Option<(u8, &[u8])>
    ensures found { IfSome result (λ next. step.escape_and text.now ≡ Some (next.0, next.1.now)) }
    ensures none { IfNone result (step.escape_and text.now ≡ None) }
{
    let [byte, rest @ ..] = text else {
        return None;
    };
    match escape_of(*byte) {
        Some(read) => Some((read, rest)),
        None => None,
    }
}

/// The byte for which a text's next one or two stand, and what follows.
fn next_byte(text: &[u8]) -> Option<(u8, &[u8])>
    ensures found { IfSome result (λ next. step.next_byte text.now ≡ Some (next.0, next.1.now)) }
    ensures none { IfNone result (step.next_byte text.now ≡ None) }
{
    let [byte, rest @ ..] = text else {
        return None;
    };
    if *byte == b'\\' {
        return escape_and(rest);
    }
    if *byte == b'"' || *byte == b'\n' {
        return None;
    }
    Some((*byte, rest))
}

/// What stands before the closing quote, with escapes read.
fn inside_of(alloc: Global, text: &[u8]) -> Result<Vec<u8>, Halt<BadValue>>
    ensures { ReadsAs (λ bytes. bytes.items) (leaf.inside_of false text.now) result }
{
    let mut bytes = Vec::new(alloc);
    let mut left = text;
    while let Some((byte, rest)) = next_byte(left) {
        bytes.push(byte)?;
        left = rest;
    }
    if left == b"\"".as_slice() {
        Ok(bytes)
    } else {
        Err(Halt::Because(BadValue))
    }
}

fn is_utf8(bytes: &[u8]) -> bool
    ensures { result ≡ is_utf8 bytes.now }
{
    match str::from_utf8(bytes) {
        Ok(_) => true,
        Err(_) => false,
    }
}

/// The text that a literal stands for.
pub fn quoted(alloc: Global, text: &[u8]) -> Result<Vec<u8>, Halt<BadValue>>
    ensures { ReadsAs (λ bytes. bytes.items) (leaf.text_of text.now) result }
{
    let [first, rest @ ..] = text else {
        return Err(Halt::Because(BadValue));
    };
    if *first != b'"' {
        return Err(Halt::Because(BadValue));
    }
    let bytes = inside_of(alloc, rest)?;
    if is_utf8(&bytes) {
        Ok(bytes)
    } else {
        Err(Halt::Because(BadValue))
    }
}
