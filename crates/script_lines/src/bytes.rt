//! Texts cut at a byte.
ghost use Rattle.std.specs.Prelude.{◌≡◌, ◌∷◌, ◌++◌, IfSome, IfNone};
ghost use Rattle.script_lines.specs.Lines.{HasNone};

use memchr::memchr;

/// What stands before the first of these bytes, and what follows it.
pub fn cut(text: &[u8], byte: u8) -> Option<(&[u8], &[u8])>
    ensures whole { IfSome result (λ parts. text.now ≡ parts.0.now ++ byte ∷ parts.1.now) }
    ensures first { IfSome result (λ parts. HasNone byte parts.0.now) }
    ensures none { IfNone result (HasNone byte text.now) }
{
    match memchr(byte, text) {
        None => None,
        Some(at) => Some((&text[..at], &text[at + 1..])),
    }
}
