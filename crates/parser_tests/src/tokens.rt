use crate::same;
use elm_base::FaultKind::{BadChar, Excluded, IntTooWide, NotUtf8, OpenComment, OpenString, Tab};
use elm_base::{FaultKind, Halt, Token, TokenKind};
use layout_lexer::{TextFault, one_reading, tokens};
use std::alloc::{AllocError, Global};
use std::fmt::Write;
use std::str;

fn kind_name(kind: TokenKind) -> &'static str {
    match kind {
        TokenKind::Lower => "Lower",
        TokenKind::Upper => "Upper",
        TokenKind::Int => "Int",
        TokenKind::Char => "Char",
        TokenKind::Text => "Text",
        TokenKind::Operator => "Operator",
        TokenKind::Symbol => "Symbol",
        TokenKind::Word => "Word",
        TokenKind::Access => "Access",
        TokenKind::FieldFunction => "FieldFunction",
    }
}

/// Writes each token: its kind, its spelling, its line and its column.
fn put_tokens(out: &mut String, found: &[Token<'_>]) -> Result<(), AllocError> {
    for token in found {
        if !out.is_empty() {
            out.push_str(" ")?;
        }
        out.push_str(kind_name(token.kind))?;
        out.push_str(" ")?;
        out.push_str(str::from_utf8(token.text).unwrap_or("?"))?;
        let line = token.line;
        let column = token.column;
        write!(out, "@{line}:{column}")?;
    }
    Ok(())
}

fn written(alloc: Global, text: &str) -> Result<String, AllocError> {
    let mut out = String::new(alloc);
    match tokens(alloc, text.as_bytes()) {
        Ok(found) => put_tokens(&mut out, found.as_slice())?,
        Err(_) => out.push_str("no tokens")?,
    }
    Ok(out)
}

/// Texts and their tokens: the kind, the spelling, the line and the column of each.
const ROWS: [(&str, &str); 27] = [
    ("", ""),
    ("f.x", "Lower f@1:1 Access .x@1:2"),
    ("f .x", "Lower f@1:1 FieldFunction .x@1:3"),
    ("A.b", "Lower A.b@1:1"),
    ("A.B.c", "Lower A.B.c@1:1"),
    ("A.B.", "Upper A.B@1:1 Operator .@1:4"),
    ("A. b", "Upper A@1:1 Operator .@1:2 Lower b@1:4"),
    ("A.b.c", "Lower A.b@1:1 Access .c@1:4"),
    ("1..3", "Int 1@1:1 Symbol ..@1:2 Int 3@1:4"),
    (
        "[1..n]",
        "Symbol [@1:1 Int 1@1:2 Symbol ..@1:3 Lower n@1:5 Symbol ]@1:6",
    ),
    ("x'", "Lower x'@1:1"),
    ("a--b\nc", "Lower a@1:1 Lower c@2:1"),
    ("{- {- -} -}x", "Lower x@1:12"),
    ("\"a--b\"", "Text \"a--b\"@1:1"),
    ("\"\" 'a'", "Text \"\"@1:1 Char 'a'@1:4"),
    ("'\\n' '\\''", "Char '\\n'@1:1 Char '\\''@1:6"),
    ("9223372036854775807", "Int 9223372036854775807@1:1"),
    ("'é' x", "Char 'é'@1:1 Lower x@1:5"),
    ("\"é𝄞\" x\n  y", "Text \"é𝄞\"@1:1 Lower x@1:6 Lower y@2:3"),
    ("case x of", "Word case@1:1 Lower x@1:6 Word of@1:8"),
    ("A.of", "Lower A.of@1:1"),
    (
        ").x}.y].z",
        "Symbol )@1:1 Access .x@1:2 Symbol }@1:4 Access .y@1:5 Symbol ]@1:7 FieldFunction .z@1:8",
    ),
    ("+--b", "Operator +--@1:1 Lower b@1:4"),
    (
        "= -> | : <- :: <~",
        "Symbol =@1:1 Symbol ->@1:3 Symbol |@1:6 Symbol :@1:8 Symbol <-@1:10 Operator ::@1:13 Operator <~@1:16",
    ),
    (
        "_x`\\,",
        "Symbol _@1:1 Lower x@1:2 Symbol `@1:3 Symbol \\@1:4 Symbol ,@1:5",
    ),
    ("x\r\ny", "Lower x@1:1 Lower y@2:1"),
    ("if.x", "Word if@1:1 FieldFunction .x@1:3"),
];

#[test]
fn texts_have_their_tokens(rt: HostRuntime) -> Result<(), AllocError> {
    for (text, wanted) in &ROWS {
        let found = written(rt.alloc(), text)?;
        same(&rt, found.as_str(), *wanted, text);
    }
    one_reading();
    Ok(())
}

/// What is wrong with a text, if anything is.
fn fault_of(alloc: Global, text: &[u8]) -> Option<TextFault> {
    match tokens(alloc, text) {
        Err(Halt::Because(fault)) => Some(fault),
        _ => None,
    }
}

/// Texts, and the line and the kind of their first fault.
const FAULTS: [(&[u8], u32, FaultKind); 26] = [
    (b"main = show 1.5", 1, Excluded),
    (b"main = show 9223372036854775808", 1, IntTooWide),
    (b"x\n1e3", 2, Excluded),
    (b"0x1F", 1, Excluded),
    (b"1_000", 1, Excluded),
    (b"99999999999999999999.5", 1, Excluded),
    (b"{- -}\n{- {- -}", 2, OpenComment),
    (b"{-}", 1, OpenComment),
    (b"\"a\tb\"", 1, Tab),
    (b"-- c\n--\td", 2, Tab),
    (b"\"\\q\"", 1, BadChar),
    (b"\"\\u0041\"", 1, BadChar),
    (b"'ab'", 1, BadChar),
    (b"''", 1, BadChar),
    (b"'''", 1, BadChar),
    (b"'\n'", 1, BadChar),
    (b"'", 1, BadChar),
    (b"\"\"\"", 1, Excluded),
    (b"\"abc", 1, OpenString),
    (b"\"abc\n\"", 1, OpenString),
    (b"\"a\\\n\"", 1, OpenString),
    (b"\"\\q", 1, BadChar),
    (b"x ?", 1, BadChar),
    (b"1\xC3\xA9", 1, BadChar),
    (b"?\n\xFF\t", 2, NotUtf8),
    (b"?\n\t", 2, Tab),
];

#[test]
fn texts_have_their_first_fault(rt: HostRuntime) -> Result<(), AllocError> {
    for (text, line, kind) in FAULTS {
        let found = fault_of(rt.alloc(), text);
        let wanted = TextFault { line, kind };
        same(&rt, (text, found), (text, Some(wanted)), "fault");
    }
    Ok(())
}

/// How many tokens a text has, unless it has a fault.
fn count_of(alloc: Global, text: &[u8]) -> Option<usize> {
    match tokens(alloc, text) {
        Ok(found) => Some(found.len()),
        _ => None,
    }
}

#[test]
fn names_and_operators_have_at_most_255_bytes(rt: HostRuntime) -> Result<(), AllocError> {
    let too_large = TextFault {
        line: 1,
        kind: FaultKind::TooLarge,
    };
    for (byte, label) in [(b'x', "names"), (b'+', "operators")] {
        let text = vec![in rt.alloc(); byte; 256]?;
        let shorter = count_of(rt.alloc(), &text[..255]);
        same(&rt, shorter, Some(1), label);
        let found = fault_of(rt.alloc(), text.as_slice());
        same(&rt, found, Some(too_large), label);
    }
    Ok(())
}
