/// A place in a text. Lines and columns count from 1, columns in chars.
#[derive(Clone, Copy, Debug, PartialEq, Eq)]
pub struct At {
    pub line: u32,
    pub column: u32,
}

/// What a token is, apart from its spelling.
#[derive(Clone, Copy, Debug, PartialEq, Eq)]
pub enum TokenKind {
    /// A name that begins with a lower-case letter, with the names of modules before it or without.
    Lower,
    /// The same with an upper-case letter.
    Upper,
    Int,
    Char,
    /// A text in double quotes.
    Text,
    Operator,
    Symbol,
    /// One of the language's own words, as `let`.
    Word,
    /// A point and a label directly after what it reads.
    Access,
    /// A point and a label that stand alone.
    FieldFunction,
}

/// A token of a text: its kind, its spelling as a slice of the text, and the place of its first char.
#[derive(Clone, Copy, Debug)]
pub struct Token<'a> {
    pub kind: TokenKind,
    pub text: &'a [u8],
    pub line: u32,
    pub column: u32,
}
