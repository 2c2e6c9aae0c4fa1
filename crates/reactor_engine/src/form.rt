//! The form of the projects that are served.
ghost use Rattle.std.specs.Prelude.{◌≡◌, ◌||◌, map, codes, Some};
ghost use Rattle.std.specs.Str.{bytes_eq};
ghost use Rattle.std.specs.List.{list_all};
ghost use Rattle.std.specs.Option.{option_copied};
ghost use Rattle.elm_base.specs.Lexemes.{lexeme};
ghost use Rattle.elm_base.specs.Letters.{is_letter, is_digit};
ghost use Rattle.reactor_engine.specs.Project as spec;

use elm_base::{Token, TokenKind};
use sqlite_items::at;

/// The port that these tokens declare and show, if they have the form that is served.
pub fn port_of<'a>(tokens: &[Token<'a>]) -> Option<&'a [u8]>
    ensures { option_copied result ≡ spec.port_of (map lexeme tokens.now) }
{
    match at(tokens, 7) {
        None => None,
        Some(port) => port_at(tokens, port),
    }
}

fn port_at<'a>(tokens: &[Token<'a>], port: &Token<'a>) -> Option<&'a [u8]>
    ensures { option_copied result ≡ spec.port_among (map lexeme tokens.now)
        (Some (lexeme port.now)) }
{
    if have_form(tokens, port) {
        Some(port.text)
    } else {
        None
    }
}

fn have_form(tokens: &[Token<'_>], port: &Token<'_>) -> bool
    ensures { result ≡ spec.have_form (map lexeme tokens.now) (lexeme port.now) }
{
    is_port(port) && are_spelled_as_form(tokens, port.text) && stand_rightly(tokens)
}

fn is_port(token: &Token<'_>) -> bool
    ensures { result ≡ spec.is_port (lexeme token.now) }
{
    is_lower(token.kind)
        && token.text.len() <= 255
        && is_plain_name(token.text)
        && !is_taken(token.text)
}

fn is_lower(kind: TokenKind) -> bool
    ensures { result ≡ spec.is_lower kind }
{
    match kind {
        TokenKind::Lower => true,
        _ => false,
    }
}

fn is_plain_name(text: &[u8]) -> bool
    ensures { result ≡ list_all (λ byte. is_letter byte || is_digit byte) text.now }
{
    text.iter().all(|byte| byte.is_ascii_alphanumeric())
}

fn is_taken(text: &[u8]) -> bool
    ensures { result ≡ (bytes_eq text.now (codes "main") || bytes_eq text.now (codes "show")) }
{
    text == b"main".as_slice() || text == b"show".as_slice()
}

fn stand_rightly(tokens: &[Token<'_>]) -> bool
    ensures { result ≡ list_all spec.stands_rightly (map lexeme tokens.now) }
{
    match tokens {
        [] => true,
        [first, rest @ ..] => stands_rightly(first) && stand_rightly(rest),
    }
}

fn stands_rightly(token: &Token<'_>) -> bool
    ensures { result ≡ spec.stands_rightly (lexeme token.now) }
{
    if token.column == 1 {
        begins_line(token.text)
    } else {
        !begins_line(token.text)
    }
}

fn begins_line(text: &[u8]) -> bool
    ensures { result ≡ spec.begins_line text.now }
{
    text == b"import".as_slice() || text == b"port".as_slice() || text == b"main".as_slice()
}

fn are_spelled_as_form(tokens: &[Token<'_>], port: &[u8]) -> bool
    ensures { result ≡ spec.are_spelled (map lexeme tokens.now) (spec.form port.now) }
{
    let form: [&[u8]; 16] = [
        b"import",
        b"Graphics.Element",
        b"exposing",
        b"(",
        b"..",
        b")",
        b"port",
        port,
        b":",
        b"Signal",
        b"Int",
        b"main",
        b"=",
        b"Signal.map",
        b"show",
        port,
    ];
    are_spelled(tokens, &form)
}

fn are_spelled(tokens: &[Token<'_>], texts: &[&[u8]]) -> bool
    ensures { result ≡ spec.are_spelled (map lexeme tokens.now) (map (λ text. text.now) texts.now) }
{
    match tokens {
        [] => texts.is_empty(),
        [token, tokens @ ..] => match texts {
            [] => false,
            [text, texts @ ..] => token.text == *text && are_spelled(tokens, texts),
        },
    }
}
