//! The literals that inputs take.
ghost use Rattle.std.specs.Prelude.{◌≡◌, ◌≢◌, slice_index};
ghost use Rattle.reactor_meaning.specs.Literal as literal;

use std::str;

/// The integer that a text spells, if it spells one within 64 bits.
pub fn integer_of(text: &[u8]) -> Option<i64>
    ensures { result ≡ literal.integer_of text.now }
{
    // The reader of std takes a plus too.
    if !text.is_empty() && text[0] == b'+' {
        return None;
    }
    match str::from_utf8(text) {
        Ok(text) => parsed(text),
        Err(_) => None,
    }
}

fn parsed(text: &str) -> Option<i64>
    requires { slice_index text.now 0 ≢ 43 }
    ensures { result ≡ literal.integer_of text.now }
{
    text.parse::<i64>().ok()
}
