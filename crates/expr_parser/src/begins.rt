//! What the parts of expressions begin with.
use grammar::Terminal;

/// An operator that is no name in backticks.
pub const SIGNS: [Terminal; 3] = [Terminal::Operator, Terminal::Minus, Terminal::Cons];

/// What an operator between operands begins with.
pub const OPERATORS: [Terminal; 4] = [
    Terminal::Operator,
    Terminal::Minus,
    Terminal::Cons,
    Terminal::Backtick,
];

/// What an atom begins with.
pub const ATOMS: [Terminal; 10] = [
    Terminal::Int,
    Terminal::Char,
    Terminal::Text,
    Terminal::Lower,
    Terminal::QualifiedLower,
    Terminal::Upper,
    Terminal::FieldFunction,
    Terminal::LeftParen,
    Terminal::LeftBracket,
    Terminal::LeftBrace,
];

/// What begins a form that takes all that stands behind it.
pub const LAST_FORMS: [Terminal; 4] = [
    Terminal::Backslash,
    Terminal::If,
    Terminal::Let,
    Terminal::Case,
];

/// What an expression begins with.
pub const EXPRESSIONS: [Terminal; 15] = [
    Terminal::Backslash,
    Terminal::If,
    Terminal::Let,
    Terminal::Case,
    Terminal::Minus,
    Terminal::Int,
    Terminal::Char,
    Terminal::Text,
    Terminal::Lower,
    Terminal::QualifiedLower,
    Terminal::Upper,
    Terminal::FieldFunction,
    Terminal::LeftParen,
    Terminal::LeftBracket,
    Terminal::LeftBrace,
];

/// What begins the left side of a definition.
pub const DEFINITIONS: [Terminal; 3] = [Terminal::Lower, Terminal::LeftParen, Terminal::LeftBrace];

/// What a pattern begins with.
pub const PATTERNS: [Terminal; 9] = [
    Terminal::Upper,
    Terminal::Underscore,
    Terminal::Lower,
    Terminal::Int,
    Terminal::Char,
    Terminal::Text,
    Terminal::LeftBracket,
    Terminal::LeftParen,
    Terminal::LeftBrace,
];
