//! A text from its first token to its last.

ghost use Rattle.std.specs.Prelude.{◌≡◌, ◌≤◌, ◌⊎◌, Bool, List, length, map, IfOk, IfErr, MatchOption, MatchResult};
ghost use Rattle.std.specs.Str.{IsUtf8};
ghost use Rattle.elm_base.specs.declared.memory.Halt.TheVariants as halts;
ghost use Rattle.elm_base.specs.declared.token.TokenKind.{TokenKind};
ghost use Rattle.elm_base.specs.Lexemes.{Lexeme, lexeme};
ghost use Rattle.layout_lexer.specs.declared.place.TextFault.{TextFault};
ghost use Rattle.layout_lexer.specs.Chars.{Text};
ghost use Rattle.layout_lexer.specs.Places.{fault_after as fault_after_of};
ghost use Rattle.layout_lexer.specs.Spellings.{Begins};
ghost use Rattle.layout_lexer.specs.Cuts.{joins as joins_of, is_value as is_value_of, HasNoTab, HasBadByte, HasTab};
ghost use Rattle.layout_lexer.specs.Tokens.{Stands, token_part, IsSpelling, Tokens, FirstFault, AreSlices, OnBecause};
ghost use Rattle.layout_lexer.specs.Scan.{Scans, Stops};

use crate::piece::next_piece;
use crate::place::{TextFault, place_from, start};
use elm_base::{FaultKind, Halt, Token, TokenKind};
use memchr::memchr;
use std::alloc::Global;
use std::str;

/// The tokens of the text, in order, or its first fault. Lines and columns count from 1, columns in
/// chars, and a count stands still at the greatest `u32`. A byte that isn't UTF-8 comes before a tab, a
/// tab before all other faults, and of these the first in the text comes first; each is reported at the
/// line where its token or comment begins, or where the byte or tab stands.
pub fn tokens(alloc: Global, text: &[u8]) -> Result<Vec<Token<'_>>, Halt<TextFault>>
    ensures listed { IfOk result (λ found. Tokens text.now (map lexeme found.items)) }
    ensures slices { IfOk result (λ found. AreSlices text.now (map lexeme found.items)) }
    ensures refused { IfErr result (λ halt. OnBecause halt (λ fault. FirstFault text.now fault)) }

    // What has tokens gives them, and what has a fault gives it, or memory runs out.
    ensures exact { (list : List Lexeme) → Tokens text.now list →
        MatchResult result (λ found. map lexeme found.items ≡ list) (λ halt. halt ≡ halts.NoMemory) }
    ensures faulty { (fault : TextFault) → FirstFault text.now fault →
        MatchResult result (λ _. ⊥) (λ halt. (halt ≡ halts.Because fault) ⊎ (halt ≡ halts.NoMemory)) }
{
    scan(alloc, text)
}

/// Each text has one list of tokens or one first fault, and not both. A token is the longest spelling, of
/// whatever kind, with which the text goes on at its place.
pub fn one_reading()
    ensures some { (text : Text) →
        ((list : List Lexeme) × Tokens text list) ⊎ ((fault : TextFault) × FirstFault text fault) }
    ensures one_list { (text : Text) (list other : List Lexeme) → Tokens text list → Tokens text other → list ≡ other }
    ensures one_fault { (text : Text) (fault other : TextFault) →
        FirstFault text fault → FirstFault text other → fault ≡ other }
    ensures not_both { (text : Text) (list : List Lexeme) (fault : TextFault) →
        Tokens text list → FirstFault text fault → ⊥ }
    ensures longest { (joined : Bool) (text : Text) (kind : TokenKind) (s other : Text) →
        Stands joined text (token_part kind s) → Begins other text → IsSpelling other → length other ≤ length s }
{}

fn scan(alloc: Global, text: &[u8]) -> Result<Vec<Token<'_>>, Halt<TextFault>>
    ensures listed { IfOk result (λ found. Scans text.now (map lexeme found.items)) }
    ensures refused { IfErr result (λ halt. OnBecause halt (λ fault. Stops text.now fault)) }
{
    if let Some(fault) = faulty_byte(text) {
        return Err(Halt::Because(fault));
    }
    let mut found = Vec::new(alloc);
    let mut at = start();
    let mut is_joined = false;
    let mut left = text;
    while !left.is_empty() {
        let piece = match next_piece(left, is_joined) {
            Ok(piece) => piece,
            Err(kind) => {
                return Err(Halt::Because(TextFault {
                    line: at.line,
                    kind,
                }));
            }
        };
        let (spelling, rest) = left.split_at(piece.len);
        if let Some(kind) = piece.kind {
            found.push(Token {
                kind,
                text: spelling,
                line: at.line,
                column: at.column,
            })?;
        }
        is_joined = joins(piece.kind, spelling);
        at = place_from(at, spelling);
        left = rest;
    }
    Ok(found)
}

/// Whether a `.` directly after this piece reads a field of it.
fn joins(kind: Option<TokenKind>, spelling: &[u8]) -> bool
    ensures { result ≡ joins_of kind spelling.now }
{
    match kind {
        None => false,
        Some(kind) => is_value(kind, spelling),
    }
}

fn is_value(kind: TokenKind, spelling: &[u8]) -> bool
    ensures { result ≡ is_value_of kind spelling.now }
{
    match kind {
        TokenKind::Lower | TokenKind::Access => true,
        TokenKind::Symbol => spelling.contains(&b')') || spelling.contains(&b'}'),
        _ => false,
    }
}

/// The fault of the first byte that isn't UTF-8, or else of the first tab.
fn faulty_byte(text: &[u8]) -> Option<TextFault>
    ensures { MatchOption result (IsUtf8 text.now × HasNoTab text.now)
        (λ f. HasBadByte text.now f ⊎ HasTab text.now f) }
{
    if let Err(error) = str::from_utf8(text) {
        return Some(fault_after(&text[..error.valid_up_to()], FaultKind::NotUtf8));
    }
    match memchr(b'\t', text) {
        None => None,
        Some(at) => Some(fault_after(&text[..at], FaultKind::Tab)),
    }
}

#[tactic(auto, using(crate::proofs::Places::steps_from_start))]
fn fault_after(before: &[u8], kind: FaultKind) -> TextFault
    ensures { result ≡ fault_after_of before.now kind }
{
    TextFault {
        line: place_from(start(), before).line,
        kind,
    }
}
