//! Kinds of bytes, and runs of one kind.

ghost use Rattle.std.specs.Prelude.{◌≡◌, ◌≢◌, ◌<◌, ◌≤◌, length, slice_index, true};
ghost use Rattle.layout_lexer.specs.Chars as spec;

/// Which kind of token a byte begins.
#[derive(Clone, Copy, Debug, PartialEq, Eq)]
pub enum Class {
    White,
    Lower,
    Upper,
    Digit,
    Quote,
    Apostrophe,
    Symbol,
    Operator,
    /// One that begins no token.
    Other,
}

pub const WHITE: &[u8] = b" \n\r";

pub const SYMBOLS: &[u8] = b"()[]{},\\_`";

pub const OPERATORS: &[u8] = b"+-*/%<>=!&|^~@#$:.";

#[tactic(auto, unfolding(crate::specs::Chars::class_of))]
pub fn class_of(byte: u8) -> Class
    ensures { result ≡ spec.class_of byte }
{
    if byte.is_ascii_lowercase() {
        Class::Lower
    } else if byte.is_ascii_uppercase() {
        Class::Upper
    } else if byte.is_ascii_digit() {
        Class::Digit
    } else if byte == b'"' {
        Class::Quote
    } else if byte == b'\'' {
        Class::Apostrophe
    } else if WHITE.contains(&byte) {
        Class::White
    } else if SYMBOLS.contains(&byte) {
        Class::Symbol
    } else if OPERATORS.contains(&byte) {
        Class::Operator
    } else {
        Class::Other
    }
}

/// The bytes that a run may be made of.
#[derive(Clone, Copy, Debug)]
pub enum Run {
    Digits,
    Operators,
    /// Letters, digits, `_` and `'`.
    Name,
    /// The bytes of a char after its first.
    Continuation,
    /// The bytes of one line.
    Line,
}

#[tactic(auto, unfolding(crate::specs::Chars::is_in))]
pub fn is_in(class: Class, byte: u8) -> bool
    ensures { result ≡ spec.is_in class byte }
{
    class_of(byte) == class
}

pub fn is_letter(byte: u8) -> bool
    ensures { result ≡ spec.is_letter byte }
{
    is_in(Class::Lower, byte) || is_in(Class::Upper, byte)
}

fn runs_on(run: Run, byte: u8) -> bool
    ensures { result ≡ spec.runs_on run byte }
{
    match run {
        Run::Digits => is_in(Class::Digit, byte),
        Run::Operators => is_in(Class::Operator, byte),
        Run::Name => is_name_byte(byte),
        Run::Continuation => is_continuation(byte),
        Run::Line => byte != b'\n',
    }
}

pub fn is_name_byte(byte: u8) -> bool
    ensures { result ≡ spec.is_name_byte byte }
{
    is_letter(byte) || is_in(Class::Digit, byte) || byte == b'_' || byte == b'\''
}

/// Whether this is a byte of a char after its first.
pub fn is_continuation(byte: u8) -> bool
    ensures { result ≡ spec.is_continuation byte }
{
    128 <= byte && byte < 192
}

/// The byte at this place, or 0 past the end.
pub fn byte(text: &[u8], at: usize) -> u8
    ensures value { result ≡ slice_index text.now at }
    ensures within { result ≢ 0 → at < length text.now }
{
    if at < text.len() { text[at] } else { 0 }
}

/// The first place from `at` on that doesn't go on with the run.
pub fn past(run: Run, text: &[u8], at: usize) -> usize
    requires { at ≤ length text.now }
    ensures value { result ≡ spec.past run text.now at }
    ensures within { (at ≤ result) × (result ≤ length text.now) }
    ensures moves { at < length text.now → spec.runs_on run (slice_index text.now at) ≡ true → at < result }
{
    let mut end = at;
    while end < text.len() && runs_on(run, text[end]) {
        end += 1;
    }
    end
}
