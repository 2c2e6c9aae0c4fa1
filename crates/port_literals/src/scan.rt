//! The commas that part a text: those outside brackets and texts.
ghost use Rattle.std.specs.Prelude.{◌≡◌, ◌+◌, ◌≤◌, ◌<◌, ◌^◌, length};
ghost use Rattle.port_literals.specs.declared.scan.Place.TheVariants as place;
ghost use Rattle.port_literals.specs.Parts as spec;
ghost use Rattle.port_literals.specs.Steps as step;

/// Where a scan of a text stands.
#[derive(Clone, Copy)]
pub enum Place {
    /// Outside texts, within so many open brackets.
    Open(usize),
    /// In a text, within so many open brackets.
    Quoted(usize),
    /// Directly behind a backslash in a text.
    Escaped(usize),
}

fn opens(byte: u8) -> bool
    ensures { result ≡ spec.opens byte }
{
    byte == b'(' || byte == b'[' || byte == b'{'
}

fn closes(byte: u8) -> bool
    ensures { result ≡ spec.closes byte }
{
    byte == b')' || byte == b']' || byte == b'}'
}

pub fn fewer(depth: usize) -> usize
    ensures { result ≡ spec.fewer depth }
{
    if depth == 0 { 0 } else { depth - 1 }
}

/// The place behind a byte outside texts.
fn after_open(depth: usize, byte: u8) -> Place
    requires { depth + 1 < 2 ^ 64 }
    ensures { result ≡ spec.after (place.Open depth) byte }
{
    if byte == b'"' {
        Place::Quoted(depth)
    } else if opens(byte) {
        Place::Open(depth + 1)
    } else if closes(byte) {
        Place::Open(fewer(depth))
    } else {
        Place::Open(depth)
    }
}

/// The place behind a byte in a text.
fn after_quoted(depth: usize, byte: u8) -> Place
    ensures { result ≡ spec.after (place.Quoted depth) byte }
{
    if byte == b'"' {
        Place::Open(depth)
    } else if byte == b'\\' {
        Place::Escaped(depth)
    } else {
        Place::Quoted(depth)
    }
}

fn after(at: Place, byte: u8) -> Place
    requires { step.depth at + 1 < 2 ^ 64 }
    ensures { result ≡ spec.after at byte }
{
    match at {
        Place::Open(depth) => after_open(depth, byte),
        Place::Quoted(depth) => after_quoted(depth, byte),
        Place::Escaped(depth) => Place::Quoted(depth),
    }
}

/// Whether a byte at this place is a comma that parts the text.
fn parts_at(at: Place, byte: u8) -> bool
    ensures { result ≡ spec.parts_at at byte }
{
    match at {
        Place::Open(depth) => depth == 0 && byte == b',',
        _ => false,
    }
}

/// How many bytes stand before the first comma that parts a text; as many as it has where none does.
pub fn comma(text: &[u8]) -> usize
    ensures first { result ≡ step.comma (place.Open 0) text.now }
    ensures within { result ≤ length text.now }
{
    let mut at = Place::Open(0);
    let mut left = text;
    while let [byte, rest @ ..] = left {
        if parts_at(at, *byte) {
            break;
        }
        at = after(at, *byte);
        left = rest;
    }
    text.len() - left.len()
}
