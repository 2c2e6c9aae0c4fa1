//! Numbers, texts and chars.

ghost use Rattle.std.specs.Prelude.{◌≡◌, ◌<◌, ◌≤◌, ◌+◌, length, slice_index, IfOk, true, false};
ghost use Rattle.layout_lexer.specs.Chars.{is_in as is_in_class};
ghost use Rattle.layout_lexer.specs.Marks as marks;
ghost use Rattle.layout_lexer.specs.Pieces as spec;

use crate::byte_class::{Class, Run, byte, is_in, is_letter, past};
use crate::piece::Piece;
use elm_base::{FaultKind, TokenKind};

/// The greatest integer literal.
pub const MAX_INT: u128 = 9223372036854775807;

pub const ESCAPES: &[u8] = b"ntr\"'\\";

/// The longest run of digits. A point with a digit, a letter or `_` directly behind it is a form that is left out.
#[tactic(auto, unfolding(crate::specs::Pieces::number))]
pub fn number(text: &[u8]) -> Result<Piece, FaultKind>
    requires nonempty { 0 < length text.now }
    requires begins { is_in_class Class.Digit (slice_index text.now 0) ≡ true }
    ensures value { result ≡ spec.number text.now }
    ensures within { IfOk result (λ p. (1 ≤ p.len) × (p.len ≤ length text.now)) }
{
    let len = past(Run::Digits, text, 0);
    if goes_on(&text[len..]) {
        return Err(FaultKind::Excluded);
    }
    if !fits(&text[..len]) {
        return Err(FaultKind::IntTooWide);
    }
    Ok(Piece::token(TokenKind::Int, len))
}

fn goes_on(rest: &[u8]) -> bool
    ensures { result ≡ marks.goes_on rest.now }
{
    let next = byte(rest, 0);
    is_letter(next) || next == b'_' || (next == b'.' && is_in(Class::Digit, byte(rest, 1)))
}

fn fits(digits: &[u8]) -> bool
    ensures { result ≡ spec.fits_from 0 digits.now }
{
    let mut left = digits;
    let mut value: u128 = 0;
    while let [digit, rest @ ..] = left {
        value = value * 10 + u128::from(digit.saturating_sub(b'0'));
        if MAX_INT < value {
            return false;
        }
        left = rest;
    }
    true
}

/// A text in double quotes, on one line.
#[tactic(auto, unfolding(crate::specs::Pieces::quoted_text))]
pub fn quoted_text(text: &[u8]) -> Result<Piece, FaultKind>
    requires { 0 < length text.now }
    ensures value { result ≡ spec.quoted_text text.now }
    ensures within { IfOk result (λ p. (1 ≤ p.len) × (p.len ≤ length text.now)) }
{
    if byte(text, 1) == b'"' && byte(text, 2) == b'"' {
        return Err(FaultKind::Excluded);
    }
    let end = quoted_end(&text[1..])?;
    Ok(Piece::token(TokenKind::Text, end))
}

fn quoted_end(chars: &[u8]) -> Result<usize, FaultKind>
    requires { length chars.now < usize.MAX }
    ensures value { result ≡ spec.quoted_from false 1 chars.now }
    ensures within { IfOk result (λ end. (1 ≤ end) × (end ≤ length chars.now + 1)) }
{
    let mut left = chars;
    let mut end = 1;
    let mut is_escaped = false;
    while let [first, rest @ ..] = left {
        if is_escaped {
            if !is_escape(*first) {
                return Err(open_or_bad(*first));
            }
            is_escaped = false;
        } else {
            if *first == b'"' {
                return Ok(end + 1);
            }
            if *first == b'\n' {
                return Err(FaultKind::OpenString);
            }
            is_escaped = *first == b'\\';
        }
        end += 1;
        left = rest;
    }
    Err(FaultKind::OpenString)
}

/// What a backslash before this byte is: at the end of a line, the text doesn't end there.
fn open_or_bad(byte: u8) -> FaultKind
    ensures { result ≡ spec.open_or_bad byte }
{
    if byte == b'\n' {
        FaultKind::OpenString
    } else {
        FaultKind::BadChar
    }
}

fn is_escape(byte: u8) -> bool
    ensures { result ≡ marks.is_escape byte }
{
    ESCAPES.contains(&byte)
}

/// One char or escape between single quotes.
#[tactic(auto, unfolding(crate::specs::Pieces::character))]
pub fn character(text: &[u8]) -> Result<Piece, FaultKind>
    requires { 0 < length text.now }
    ensures value { result ≡ spec.character text.now }
    ensures within { IfOk result (λ p. (1 ≤ p.len) × (p.len ≤ length text.now)) }
{
    if text.len() < 3 {
        return Err(FaultKind::BadChar);
    }
    let first = text[1];
    if first == b'\'' || first == b'\n' {
        return Err(FaultKind::BadChar);
    }
    let end = if first == b'\\' {
        if is_escape(text[2]) { 3 } else { 2 }
    } else {
        past(Run::Continuation, text, 2)
    };
    if byte(text, end) != b'\'' {
        return Err(FaultKind::BadChar);
    }
    Ok(Piece::token(TokenKind::Char, end + 1))
}
