//! The types that ports of programs have.
ghost use Rattle.std.specs.Prelude.{◌≡◌, ◌&&◌, map};
ghost use Rattle.std.specs.List.{list_all};
ghost use Rattle.elm_base.specs.Letters as letters;
ghost use Rattle.port_texts.specs.Given as spec;

use elm_base::{Name, PortType};
use std::cmp::Ordering;

/// So many levels has a type that nests 32 deep.
const MAX_LEVELS: usize = 33;

const MAX_LABEL: usize = 255;

/// The words of the language, which are no labels.
const WORDS: [&[u8]; 18] = [
    b"module",
    b"where",
    b"import",
    b"as",
    b"exposing",
    b"type",
    b"alias",
    b"port",
    b"if",
    b"then",
    b"else",
    b"let",
    b"in",
    b"case",
    b"of",
    b"infixl",
    b"infixr",
    b"infix",
];

fn is_among(words: &[&[u8]], text: &[u8]) -> bool
    ensures { result ≡ spec.is_among (map (λ word. word.now) words.now) text.now }
{
    match words {
        [] => false,
        [word, others @ ..] => text == *word || is_among(others, text),
    }
}

fn is_word(text: &[u8]) -> bool
    ensures { result ≡ spec.is_among spec.words text.now }
{
    is_among(&WORDS, text)
}

fn is_name_byte(byte: u8) -> bool
    ensures { result ≡ letters.is_name_byte byte }
{
    byte.is_ascii_alphanumeric() || byte == b'_' || byte == b'\''
}

fn are_name_bytes(text: &[u8]) -> bool
    ensures { result ≡ list_all letters.is_name_byte text.now }
{
    text.iter().all(|byte| is_name_byte(*byte))
}

fn is_small(byte: u8) -> bool
    ensures { result ≡ spec.is_small byte }
{
    b'a' <= byte && byte <= b'z'
}

/// Whether a text is a lower-case letter and bytes of names.
fn is_name(text: &[u8]) -> bool
    ensures { result ≡ spec.is_name text.now }
{
    let [first, others @ ..] = text else {
        return false;
    };
    is_small(*first) && are_name_bytes(others)
}

fn is_label(text: &[u8]) -> bool
    ensures { result ≡ spec.is_label text.now }
{
    is_name(text) && text.len() <= MAX_LABEL && !is_word(text)
}

/// Whether a label comes before another in the order of bytes.
fn is_before(label: &[u8], other: &[u8]) -> bool
    ensures { result ≡ spec.is_before label.now other.now }
{
    label.cmp(other) == Ordering::Less
}

/// Whether the label stands before those of all these fields.
fn is_first(label: &[u8], fields: &[(Name, PortType)]) -> bool
    ensures { result ≡ spec.is_first label.now fields.now }
{
    fields
        .iter()
        .all(|(other, _)| is_before(label, other.bytes()))
}

/// Whether the labels are such, in the order of their bytes.
fn are_labels(fields: &[(Name, PortType)]) -> bool
    ensures { result ≡ spec.are_labels fields.now }
{
    let mut left = fields;
    while let [(label, _), others @ ..] = left {
        if !is_label(label.bytes()) || !is_first(label.bytes(), others) {
            return false;
        }
        left = others;
    }
    true
}

fn are_few(count: usize) -> bool
    ensures { result ≡ spec.are_few count }
{
    2 <= count && count <= 9
}

/// Whether the type is one of a program's port, of at most so many levels.
#[cycle(given)]
fn is_given(port: &PortType, levels: usize) -> bool
    ensures { result ≡ spec.is_given port.now levels }
{
    if levels == 0 {
        return false;
    }
    match port {
        PortType::Unit | PortType::Int | PortType::Bool | PortType::Text => true,
        PortType::Maybe(inner) => is_given(inner.get(), levels - 1),
        PortType::List(inner) => is_given(inner.get(), levels - 1),
        PortType::Tuple(parts) => tuple_given(parts.as_slice(), levels - 1),
        PortType::Fields(fields) => record_given(fields.as_slice(), levels - 1),
    }
}

#[cycle(given)]
fn tuple_given(parts: &[PortType], levels: usize) -> bool
    ensures { result ≡ spec.tuple_given levels parts.now }
{
    are_few(parts.len()) && all_given(parts, levels)
}

#[cycle(given)]
fn record_given(fields: &[(Name, PortType)], levels: usize) -> bool
    ensures { result ≡ spec.record_given levels fields.now }
{
    are_labels(fields) && fields_given(fields, levels)
}

#[cycle(given)]
fn all_given(parts: &[PortType], levels: usize) -> bool
    ensures { result ≡ spec.all_given levels parts.now }
{
    for part in parts {
        if !is_given(part, levels) {
            return false;
        }
    }
    true
}

#[cycle(given)]
fn fields_given(fields: &[(Name, PortType)], levels: usize) -> bool
    ensures { result ≡ spec.fields_given levels fields.now }
{
    for (_, port) in fields {
        if !is_given(port, levels) {
            return false;
        }
    }
    true
}

/// Whether a port of a program may have the type, its text aside: its tuples have two to nine parts, its labels are
/// such of the language and stand in the order of their bytes, and it nests at most 32 deep.
pub fn is_given_port(port: &PortType) -> bool
    ensures { result ≡ spec.is_given port.now spec.max_levels }
{
    is_given(port, MAX_LEVELS)
}
