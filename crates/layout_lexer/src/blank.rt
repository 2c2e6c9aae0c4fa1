//! Comments that nest.

ghost use Rattle.std.specs.Prelude.{◌≡◌, ◌<◌, ◌≤◌, length, IfOk, IfSome};
ghost use Rattle.layout_lexer.specs.Pieces as spec;

use crate::byte_class::byte;
use crate::piece::Piece;
use elm_base::FaultKind;

/// The comment that opens at the front, up to and with its own `-}`.
pub fn comment(text: &[u8]) -> Result<Piece, FaultKind>
    requires { 2 ≤ length text.now }
    ensures value { result ≡ spec.comment text.now }
    ensures within { IfOk result (λ p. (1 ≤ p.len) × (p.len ≤ length text.now)) }
{
    match comment_len(text) {
        None => Err(FaultKind::OpenComment),
        Some(len) => Ok(Piece::blank(len)),
    }
}

fn comment_len(text: &[u8]) -> Option<usize>
    requires { 2 ≤ length text.now }
    ensures value { result ≡ spec.comment_len text.now }
    ensures within { IfSome result (λ len. (1 ≤ len) × (len ≤ length text.now)) }
{
    let mut left = &text[2..];
    let mut len = 2;
    let mut depth: usize = 0;
    let mut is_second = false;
    while let [first, rest @ ..] = left {
        let next = byte(rest, 0);
        if is_second {
            is_second = false;
        } else if *first == b'{' && next == b'-' {
            depth += 1;
            is_second = true;
        } else if *first == b'-' && next == b'}' {
            if depth == 0 {
                return Some(len + 2);
            }
            depth -= 1;
            is_second = true;
        }
        len += 1;
        left = rest;
    }
    None
}
