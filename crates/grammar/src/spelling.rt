//! What the spellings of literals stand for.
ghost use Rattle.std.specs.Prelude.{◌≡◌, ◌<◌, ◌≤◌, ◌^◌, ◌+◌, ◌*◌, ◌-◌, ◌∷◌, List, ℕ, Option, Some, None, MatchOption, IfOk, false};
ghost use Rattle.std.specs.List.{list_all};
ghost use Rattle.elm_base.specs.Letters.{is_digit};
ghost use Rattle.grammar.specs.Spelling as spec;

use elm_base::{Name, NoMemory};
use std::alloc::Global;
use std::str;

/// The greatest Int.
const MOST_INT: u64 = 9223372036854775807;

fn is_digit(byte: u8) -> bool
    ensures { result ≡ is_digit byte }
{
    48 <= byte && byte <= 57
}

fn are_digits(text: &[u8]) -> bool
    ensures { result ≡ list_all is_digit text.now }
{
    text.iter().all(|byte| is_digit(*byte))
}

fn is_number(text: &[u8]) -> bool
    ensures { result ≡ spec.is_number text.now }
{
    0 < text.len() && are_digits(text)
}

/// The number behind whose digits this one stands, where it is below 2^64.
fn with_digit(number: u64, digit: u8) -> Option<u64>
    ensures { MatchOption result (2 ^ 64 ≤ number * 10 + (digit - 48)) (λ next. next ≡ number * 10 + (digit - 48)) }
{
    number
        .checked_mul(10)?
        .checked_add(u64::from(digit.saturating_sub(48)))
}

/// The number that the digits write, where it is below 2^64.
fn number(text: &[u8]) -> Option<u64>
    ensures { MatchOption result (2 ^ 64 ≤ spec.number text.now) (λ number. number ≡ spec.number text.now) }
{
    let mut number = 0;
    for digit in text {
        match with_digit(number, *digit) {
            None => return None,
            Some(next) => number = next,
        }
    }
    Some(number)
}

/// The value of an Int token.
#[tactic(auto, unfolding(crate::specs::Spelling::int_value))]
pub fn int_value(text: &[u8]) -> Option<i64>
    ensures { result ≡ spec.int_value text.now }
{
    if !is_number(text) {
        return None;
    }
    match number(text) {
        None => None,
        Some(number) => {
            if number <= MOST_INT {
                Some(number as i64)
            } else {
                None
            }
        }
    }
}

fn inner(text: &[u8]) -> &[u8]
    ensures { result.now ≡ spec.inner text.now }
{
    match text {
        [_, inner @ .., _] => inner,
        _ => &[],
    }
}

fn escape(byte: u8) -> Option<u8>
    ensures { result ≡ spec.escape byte }
{
    match byte {
        b'n' => Some(10),
        b't' => Some(9),
        b'r' => Some(13),
        b'"' => Some(34),
        b'\'' => Some(39),
        b'\\' => Some(92),
        _ => None,
    }
}

/// The one char whose UTF-8 these bytes are.
fn one_char(bytes: &[u8]) -> Option<char>
    ensures { result ≡ spec.one_char bytes.now }
{
    match str::from_utf8(bytes) {
        Err(_) => None,
        Ok(text) => {
            let mut chars = text.chars();
            let first = chars.next()?;
            match chars.next() {
                None => Some(first),
                Some(_) => None,
            }
        }
    }
}

/// Adds what the byte stands for to the bytes. Gives whether a backslash stands before the next byte, or `None` where the
/// byte is no escape behind a backslash.
fn put(bytes: &mut Vec<u8>, escaped: bool, byte: u8) -> Result<Option<bool>, NoMemory>
    ensures { IfOk result (λ next. (rest : List ℕ) →
        spec.behind bytes.old.items (spec.unescaped escaped (byte ∷ rest)) ≡ spec.goes_on bytes.new.items next rest) }
{
    if escaped {
        return match escape(byte) {
            None => Ok(None),
            Some(meant) => {
                bytes.push(meant)?;
                Ok(Some(false))
            }
        };
    }
    if byte == b'\\' {
        return Ok(Some(true));
    }
    bytes.push(byte)?;
    Ok(Some(false))
}

fn unescaped(alloc: Global, text: &[u8]) -> Result<Option<Name>, NoMemory>
    ensures { IfOk result (λ value. value ≡ spec.unescaped false text.now) }
{
    let mut bytes = Vec::new(alloc);
    let mut escaped = false;
    for byte in text {
        match put(&mut bytes, escaped, *byte)? {
            None => return Ok(None),
            Some(next) => escaped = next,
        }
    }
    if escaped {
        Ok(None)
    } else {
        Ok(Some(Name::from_vec(bytes)))
    }
}

/// The value of a Text token.
#[tactic(auto, unfolding(crate::specs::Spelling::text_value))]
pub fn text_value(alloc: Global, text: &[u8]) -> Result<Option<Name>, NoMemory>
    ensures { IfOk result (λ value. value ≡ spec.text_value text.now) }
{
    unescaped(alloc, inner(text))
}

/// The value of a Char token.
#[tactic(auto, unfolding(crate::specs::Spelling::char_value))]
pub fn char_value(alloc: Global, text: &[u8]) -> Result<Option<char>, NoMemory>
    ensures { IfOk result (λ value. value ≡ spec.char_value text.now) }
{
    match text_value(alloc, text)? {
        None => Ok(None),
        Some(bytes) => Ok(one_char(bytes.bytes())),
    }
}

/// What stands behind the point of an access or a field function.
#[tactic(auto, unfolding(crate::specs::Spelling::label_of))]
pub fn label_of(alloc: Global, text: &[u8]) -> Result<Option<Name>, NoMemory>
    ensures { IfOk result (λ value. value ≡ spec.label_of text.now) }
{
    match text {
        [] => Ok(None),
        [_, label @ ..] => Ok(Some(Name::of(alloc, label)?)),
    }
}
