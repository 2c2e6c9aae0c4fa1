//! What tokens are to the grammar.
ghost use Rattle.std.specs.Prelude.{◌≡◌, map};
ghost use Rattle.grammar.specs.Terminals as spec;

use elm_base::{Token, TokenKind};

/// What a token is to the grammar, apart from what its spelling stands for. Each word and each symbol of the language is one
/// of its own.
#[derive(Clone, Copy, PartialEq, Eq)]
pub enum Terminal {
    /// A name that begins with a lower-case letter, without modules before it.
    Lower,
    QualifiedLower,
    /// A name that begins with an upper-case letter, with modules before it or without.
    Upper,
    Int,
    Char,
    Text,
    Access,
    FieldFunction,
    /// An operator other than `-` and `::`.
    Operator,
    Minus,
    Cons,
    LeftParen,
    RightParen,
    LeftBracket,
    RightBracket,
    LeftBrace,
    RightBrace,
    Comma,
    Backslash,
    Underscore,
    Backtick,
    Equals,
    Arrow,
    Bar,
    Colon,
    LeftArrow,
    DotDot,
    Alias,
    As,
    Case,
    Else,
    Exposing,
    If,
    Import,
    In,
    Infix,
    Infixl,
    Infixr,
    Let,
    Module,
    Of,
    Port,
    Then,
    Type,
    Where,
    /// A word or a symbol that the language doesn't have. No text has such a token.
    Other,
}

/// The words of the language.
const WORDS: [(&[u8], Terminal); 18] = [
    (b"alias", Terminal::Alias),
    (b"as", Terminal::As),
    (b"case", Terminal::Case),
    (b"else", Terminal::Else),
    (b"exposing", Terminal::Exposing),
    (b"if", Terminal::If),
    (b"import", Terminal::Import),
    (b"in", Terminal::In),
    (b"infix", Terminal::Infix),
    (b"infixl", Terminal::Infixl),
    (b"infixr", Terminal::Infixr),
    (b"let", Terminal::Let),
    (b"module", Terminal::Module),
    (b"of", Terminal::Of),
    (b"port", Terminal::Port),
    (b"then", Terminal::Then),
    (b"type", Terminal::Type),
    (b"where", Terminal::Where),
];

/// The symbols of the language.
const SYMBOLS: [(&[u8], Terminal); 16] = [
    (b"(", Terminal::LeftParen),
    (b")", Terminal::RightParen),
    (b"[", Terminal::LeftBracket),
    (b"]", Terminal::RightBracket),
    (b"{", Terminal::LeftBrace),
    (b"}", Terminal::RightBrace),
    (b",", Terminal::Comma),
    (b"\\", Terminal::Backslash),
    (b"_", Terminal::Underscore),
    (b"`", Terminal::Backtick),
    (b"=", Terminal::Equals),
    (b"->", Terminal::Arrow),
    (b"|", Terminal::Bar),
    (b":", Terminal::Colon),
    (b"<-", Terminal::LeftArrow),
    (b"..", Terminal::DotDot),
];

/// What the first entry with this spelling says.
fn listed(entries: &[(&[u8], Terminal)], text: &[u8]) -> Terminal
    ensures { result ≡ spec.listed (map (λ entry. (entry.0.now, entry.1)) entries.now) text.now }
{
    match entries {
        [] => Terminal::Other,
        [(spelling, terminal), rest @ ..] => {
            if text == *spelling {
                *terminal
            } else {
                listed(rest, text)
            }
        }
    }
}

fn symbol(text: &[u8]) -> Terminal
    ensures { result ≡ spec.listed spec.symbols text.now }
{
    listed(&SYMBOLS, text)
}

fn word(text: &[u8]) -> Terminal
    ensures { result ≡ spec.listed spec.words text.now }
{
    listed(&WORDS, text)
}

fn operator(text: &[u8]) -> Terminal
    ensures { result ≡ spec.operator text.now }
{
    if text == b"-".as_slice() {
        Terminal::Minus
    } else if text == b"::".as_slice() {
        Terminal::Cons
    } else {
        Terminal::Operator
    }
}

fn is_qualified(text: &[u8]) -> bool
    ensures { result ≡ spec.is_qualified text.now }
{
    text.iter().any(|byte| *byte == b'.')
}

/// What the token is to the grammar.
#[tactic(auto, unfolding(crate::specs::Terminals::terminal_of))]
pub fn terminal_of(token: &Token<'_>) -> Terminal
    ensures { result ≡ spec.terminal_of token.now.kind token.now.text.now }
{
    match token.kind {
        TokenKind::Lower => {
            if is_qualified(token.text) {
                Terminal::QualifiedLower
            } else {
                Terminal::Lower
            }
        }
        TokenKind::Upper => Terminal::Upper,
        TokenKind::Int => Terminal::Int,
        TokenKind::Char => Terminal::Char,
        TokenKind::Text => Terminal::Text,
        TokenKind::Operator => operator(token.text),
        TokenKind::Symbol => symbol(token.text),
        TokenKind::Word => word(token.text),
        TokenKind::Access => Terminal::Access,
        TokenKind::FieldFunction => Terminal::FieldFunction,
    }
}

/// Whether both are the same.
#[tactic(auto, unfolding(crate::specs::Terminals::same_terminal))]
pub fn same_terminal(a: Terminal, b: Terminal) -> bool
    ensures { result ≡ spec.same_terminal a b }
{
    a == b
}
