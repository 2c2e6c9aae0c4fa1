ghost use Rattle.std.specs.Prelude.{◌≡◌, ◌≤◌, length, map, nat_eq, not};
ghost use Rattle.std.specs.List.{prefix_len};
ghost use Rattle.elm_base.specs.Lexemes.{lexeme};
ghost use Rattle.elm_library.specs.Marks as spec;

use elm_base::{NativeId, Token};

/// What a line in front of a module of the library declares, which no other module can.
#[derive(Clone, Copy, Debug, PartialEq, Eq)]
pub enum Mark {
    /// A function or value of the machine.
    Native,
    /// An input that every program has.
    Device,
    /// A type without structure.
    Opaque,
}

/// The mark with which a line begins.
pub fn mark_of(token: &Token<'_>) -> Option<Mark>
    ensures { result ≡ spec.mark_of (lexeme token.now) }
{
    if token.text == b"native".as_slice() {
        Some(Mark::Native)
    } else if token.text == b"device".as_slice() {
        Some(Mark::Device)
    } else if token.text == b"opaque".as_slice() {
        Some(Mark::Opaque)
    } else {
        None
    }
}

/// The number of the next native behind a line.
pub fn number_behind(mark: Mark, number: NativeId) -> NativeId
    ensures { result ≡ spec.number_behind mark number }
{
    match mark {
        Mark::Native => number.saturating_add(1),
        Mark::Device | Mark::Opaque => number,
    }
}

// How many tokens stand before the first one in column 1.
fn count_inside(tokens: &[Token<'_>]) -> usize
    ensures { result ≡ prefix_len (λ token. not (nat_eq token.column 1)) tokens.now }
{
    tokens.iter().take_while(|token| token.column != 1).count()
}

/// How many tokens belong to the line that begins before them: those up to the next in column 1.
#[tactic(auto, using(crate::proofs::Lens::len_of_lexemes, crate::proofs::Lens::len_within))]
pub fn line_len(tokens: &[Token<'_>]) -> usize
    ensures len { result ≡ spec.line_len (map lexeme tokens.now) }
    ensures within { result ≤ length tokens.now }
{
    count_inside(tokens)
}
