//! Names, labels and operators.

ghost use Rattle.std.specs.Prelude.{◌≡◌, ◌<◌, ◌≤◌, length, map, slice_index, IfOk, true};
ghost use Rattle.layout_lexer.specs.Chars.{is_letter, is_in as is_in_class};
ghost use Rattle.layout_lexer.specs.Marks as marks;
ghost use Rattle.layout_lexer.specs.Pieces as spec;

use crate::byte_class::{Class, Run, byte, is_in, is_letter, is_name_byte, past};
use crate::piece::Piece;
use elm_base::{FaultKind, TokenKind};

/// The most bytes of a name or an operator.
pub const MAX_NAME: usize = 255;

pub const WORDS: [&[u8]; 18] = [
    b"module",
    b"where",
    b"import",
    b"as",
    b"exposing",
    b"type",
    b"alias",
    b"port",
    b"if",
    b"then",
    b"else",
    b"let",
    b"in",
    b"case",
    b"of",
    b"infixl",
    b"infixr",
    b"infix",
];

/// The runs of operator bytes that are symbols.
pub const SYMBOL_RUNS: [&[u8]; 6] = [b"=", b"->", b"|", b":", b"<-", b".."];

/// The longest name at the front, with the names of modules before it.
#[tactic(auto, unfolding(crate::specs::Pieces::name))]
pub fn name(text: &[u8]) -> Result<Piece, FaultKind>
    requires nonempty { 0 < length text.now }
    requires begins { is_letter (slice_index text.now 0) ≡ true }
    ensures value { result ≡ spec.name text.now }
    ensures within { IfOk result (λ p. (1 ≤ p.len) × (p.len ≤ length text.now)) }
{
    let (kind, len) = name_end(text);
    if MAX_NAME < len {
        return Err(FaultKind::TooLarge);
    }
    let is_word = is_listed(&WORDS, &text[..len]);
    Ok(Piece::token(if is_word { TokenKind::Word } else { kind }, len))
}

fn name_end(text: &[u8]) -> (TokenKind, usize)
    requires nonempty { 0 < length text.now }
    requires begins { is_letter (slice_index text.now 0) ≡ true }
    ensures value { result ≡ spec.name_end text.now }
    ensures within { (1 ≤ result.1) × (result.1 ≤ length text.now) }
{
    let mut is_upper = is_in(Class::Upper, byte(text, 0));
    let mut left = text;
    let mut len = 0;
    while let [first, rest @ ..] = left {
        if !is_name_byte(*first) {
            let next = byte(rest, 0);
            if !(is_upper && *first == b'.' && is_letter(next)) {
                return (name_kind(is_upper), len);
            }
            is_upper = is_in(Class::Upper, next);
        }
        len += 1;
        left = rest;
    }
    (name_kind(is_upper), len)
}

fn name_kind(is_upper: bool) -> TokenKind
    ensures { result ≡ spec.name_kind is_upper }
{
    if is_upper {
        TokenKind::Upper
    } else {
        TokenKind::Lower
    }
}

fn is_listed(mut list: &[&[u8]], word: &[u8]) -> bool
    ensures { result ≡ marks.is_listed (map (λ w. w.now) list.entry.now) word.now }
{
    while let [first, rest @ ..] = list {
        if is_same(first, word) {
            return true;
        }
        list = rest;
    }
    false
}

fn is_same(a: &[u8], b: &[u8]) -> bool
    ensures { result ≡ marks.is_same a.now b.now }
{
    a == b
}

/// A label with a point before it, or else the longest run of operator bytes.
#[tactic(auto, unfolding(crate::specs::Pieces::operator))]
pub fn operator(text: &[u8], is_joined: bool) -> Result<Piece, FaultKind>
    requires nonempty { 0 < length text.now }
    requires begins { is_in_class Class.Operator (slice_index text.now 0) ≡ true }
    ensures value { result ≡ spec.operator is_joined text.now }
    ensures within { IfOk result (λ p. (1 ≤ p.len) × (p.len ≤ length text.now)) }
{
    if byte(text, 0) == b'.' && 1 < text.len() && is_in(Class::Lower, text[1]) {
        label(text, is_joined)
    } else {
        run(text)
    }
}

fn label(text: &[u8], is_joined: bool) -> Result<Piece, FaultKind>
    requires { 1 < length text.now }
    ensures value { result ≡ spec.label is_joined text.now }
    ensures within { IfOk result (λ p. (1 ≤ p.len) × (p.len ≤ length text.now)) }
{
    let end = past(Run::Name, text, 1);
    if MAX_NAME + 1 < end {
        return Err(FaultKind::TooLarge);
    }
    let kind = if is_joined {
        TokenKind::Access
    } else {
        TokenKind::FieldFunction
    };
    Ok(Piece::token(kind, end))
}

fn run(text: &[u8]) -> Result<Piece, FaultKind>
    requires nonempty { 0 < length text.now }
    requires begins { is_in_class Class.Operator (slice_index text.now 0) ≡ true }
    ensures value { result ≡ spec.run text.now }
    ensures within { IfOk result (λ p. (1 ≤ p.len) × (p.len ≤ length text.now)) }
{
    let end = past(Run::Operators, text, 0);
    if MAX_NAME < end {
        return Err(FaultKind::TooLarge);
    }
    let is_symbol = is_listed(&SYMBOL_RUNS, &text[..end]);
    let kind = if is_symbol {
        TokenKind::Symbol
    } else {
        TokenKind::Operator
    };
    Ok(Piece::token(kind, end))
}
