//! The piece at the front of a text: a token, a white space or a comment.

ghost use Rattle.std.specs.Prelude.{◌≡◌, ◌<◌, ◌≤◌, length, IfOk};
ghost use Rattle.layout_lexer.specs.Pieces as spec;

use crate::blank::comment;
use crate::byte_class::{Class, Run, byte, class_of, past};
use crate::literal::{character, number, quoted_text};
use crate::name::{name, operator};
use elm_base::{FaultKind, TokenKind};

/// A token of this kind, or, without a kind, white space or a comment. The length is in bytes.
#[derive(Clone, Copy, Debug)]
pub struct Piece {
    pub kind: Option<TokenKind>,
    pub len: usize,
}

impl Piece {
    pub fn blank(len: usize) -> Piece
        ensures { result ≡ spec.blank len }
    {
        Piece { kind: None, len }
    }

    pub fn token(kind: TokenKind, len: usize) -> Piece
        ensures { result ≡ spec.token kind len }
    {
        Piece {
            kind: Some(kind),
            len,
        }
    }
}

/// The piece at the front, or what is wrong with it. `is_joined` says whether a value ends directly before it.
#[tactic(auto, unfolding(crate::specs::Pieces::piece))]
pub fn next_piece(text: &[u8], is_joined: bool) -> Result<Piece, FaultKind>
    requires { 0 < length text.now }
    ensures value { result ≡ spec.piece is_joined text.now }
    ensures within { IfOk result (λ p. (1 ≤ p.len) × (p.len ≤ length text.now)) }
{
    let (first, second) = (byte(text, 0), byte(text, 1));
    if first == b'-' && second == b'-' {
        Ok(Piece::blank(past(Run::Line, text, 2)))
    } else if first == b'{' && second == b'-' {
        comment(text)
    } else {
        spelling(text, is_joined)
    }
}

#[tactic(auto, using(crate::proofs::Classes::is_in_its, crate::proofs::Classes::lower_is_letter, crate::proofs::Classes::upper_is_letter), unfolding(crate::specs::Pieces::spelling))]
fn spelling(text: &[u8], is_joined: bool) -> Result<Piece, FaultKind>
    requires { 0 < length text.now }
    ensures value { result ≡ spec.spelling is_joined text.now }
    ensures within { IfOk result (λ p. (1 ≤ p.len) × (p.len ≤ length text.now)) }
{
    match class_of(byte(text, 0)) {
        Class::White => Ok(Piece::blank(1)),
        Class::Lower | Class::Upper => name(text),
        Class::Digit => number(text),
        Class::Quote => quoted_text(text),
        Class::Apostrophe => character(text),
        Class::Symbol => Ok(Piece::token(TokenKind::Symbol, 1)),
        Class::Operator => operator(text, is_joined),
        Class::Other => Err(FaultKind::BadChar),
    }
}
