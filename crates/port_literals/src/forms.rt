//! The words and labels in literals.
ghost use Rattle.std.specs.Prelude.{◌≡◌, ◌≤◌, length, drop, map};
ghost use Rattle.std.specs.Option.{option_copied};
ghost use Rattle.port_values.specs.Literals.{ends_word};
ghost use Rattle.elm_base.specs.Letters as letters;
ghost use Rattle.port_literals.specs.Reader as spec;
ghost use Rattle.port_literals.specs.Steps as step;

use elm_base::trim_start;

/// Whether a name goes on with the byte.
pub fn is_name_byte(byte: u8) -> bool
    ensures { result ≡ letters.is_name_byte byte }
{
    byte.is_ascii_alphanumeric() || byte == b'_' || byte == b'\''
}

/// Whether a word ends before this text.
pub fn ends_word(text: &[u8]) -> bool
    ensures { result ≡ ends_word text.now }
{
    let [byte, ..] = text else {
        return true;
    };
    !is_name_byte(*byte)
}

/// What follows these bytes, where the text begins with them.
pub fn behind<'a>(start: &[u8], text: &'a [u8]) -> Option<&'a [u8]>
    ensures { option_copied result ≡ spec.behind start.now text.now }
{
    let mut left = text;
    for byte in start {
        let [first, rest @ ..] = left else {
            return None;
        };
        if *byte != *first {
            return None;
        }
        left = rest;
    }
    Some(left)
}

/// With how many bytes of a name a text begins.
fn name_len(text: &[u8]) -> usize
    ensures first { result ≡ step.name_len text.now }
    ensures within { result ≤ length text.now }
{
    let mut left = text;
    while let [byte, rest @ ..] = left {
        if !is_name_byte(*byte) {
            break;
        }
        left = rest;
    }
    text.len() - left.len()
}

/// The name with which a text begins.
fn name_of(text: &[u8]) -> &[u8]
    ensures { result.now ≡ (spec.name_and_rest text.now).0 }
{
    &text[..name_len(text)]
}

fn from(text: &[u8], at: usize) -> &[u8]
    requires { at ≤ length text.now }
    ensures { result.now ≡ drop at text.now }
{
    &text[at..]
}

/// What follows the name with which a text begins.
fn behind_name(text: &[u8]) -> &[u8]
    ensures { result.now ≡ (spec.name_and_rest text.now).1 }
{
    from(text, name_len(text))
}

/// What stands behind an equals sign and spaces.
fn behind_equals(text: &[u8]) -> Option<&[u8]>
    ensures { option_copied result ≡ spec.behind_equals text.now }
{
    let [byte, rest @ ..] = text else {
        return None;
    };
    if *byte == b'=' {
        Some(trim_start(rest))
    } else {
        None
    }
}

/// The text of the value, where a field has this label.
fn field_of<'a>(label: &[u8], text: &'a [u8]) -> Option<&'a [u8]>
    ensures { option_copied result ≡ spec.field_of label.now text.now }
{
    if label == name_of(text) {
        behind_equals(trim_start(behind_name(text)))
    } else {
        None
    }
}

/// The text of the value at this label.
pub fn at_label<'a>(label: &[u8], parts: &[&'a [u8]]) -> Option<&'a [u8]>
    ensures { option_copied result ≡ spec.at_label label.now (map (λ part. part.now) parts.now) }
{
    for part in parts {
        if let Some(inside) = field_of(label, part) {
            return Some(inside);
        }
    }
    None
}
