//! The tokens that are left to a parser.
ghost use Rattle.std.specs.Prelude.{◌≡◌, ◌≤◌, true, false, [], ◌∷◌, length, map, take, drop, MatchOption};
ghost use Rattle.elm_base.specs.declared.memory.Halt.TheVariants as halt;
ghost use Rattle.elm_base.specs.Lexemes.{lexeme};
ghost use Rattle.grammar.specs.Terminals.{first, starts};
ghost use Rattle.grammar.specs.declared.terminal.Terminal.TheVariants as k;
ghost use Rattle.grammar.specs.Reader as spec;
ghost use Rattle.grammar.specs.Spelling as spelling;
ghost use Rattle.grammar.specs.Reader.{Reads};

use crate::spelling::{char_value, int_value, label_of, text_value};
use crate::terminal::{Terminal, same_terminal, terminal_of};
use elm_base::{At, Halt, Name, Spot, Token};
use std::alloc::Global;
use std::marker::Model;

/// No tree of nesting at most 100 derives from the tokens.
#[derive(Clone, Copy, Debug, PartialEq, Eq)]
pub struct NoTree;

/// A tuple has at most so many parts.
pub const MOST_PARTS: usize = 9;

/// The tokens that are left, which contracts see as the list of them.
#[derive(Drop)]
pub struct Cursor<'a> {
    tokens: &'a [Token<'a>],
    /// What the next token is to the grammar. It is found once, when the cursor comes to the token.
    next: Option<Terminal>,
}

impl<'a> Model for Cursor<'a> {
    ghost use Rattle.std.specs.Prelude.{◌≡◌, List, map};
    ghost use Rattle.elm_base.specs.Lexemes.{Lexeme, lexeme};
    ghost use Rattle.grammar.specs.Terminals.{first};

    ghost Value = { List Lexeme };

    ghost view = { λ cursor. map lexeme cursor.tokens.now };

    ghost invariant = { λ cursor. cursor.next ≡ first (map lexeme cursor.tokens.now) };
}

/// What the first of the tokens is to the grammar.
fn first_terminal(tokens: &[Token<'_>]) -> Option<Terminal>
    ensures { result ≡ first (map lexeme tokens.now) }
{
    match tokens {
        [] => None,
        [token, ..] => Some(terminal_of(token)),
    }
}

impl<'a> Cursor<'a> {
    pub fn new(tokens: &'a [Token<'a>]) -> Cursor<'a>
        ensures { result ≡ map lexeme tokens.now }
    {
        let next = first_terminal(tokens);
        Cursor { tokens, next }
    }

    pub fn is_empty(&self) -> bool
        ensures { result ≡ spec.is_done self.now }
    {
        self.tokens.is_empty()
    }

    /// Whether the next token is this one.
    pub fn sees(&self, symbol: Terminal) -> bool
        ensures { result ≡ starts (symbol ∷ []) self.now }
    {
        match self.next {
            None => false,
            Some(next) => same_terminal(next, symbol),
        }
    }

    /// Whether the next token is one of these.
    pub fn sees_any(&self, set: &[Terminal]) -> bool
        ensures { result ≡ starts set.now self.now }
    {
        let mut rest = set;
        'terminals: while let [symbol, more @ ..] = rest {
            if self.sees(*symbol) {
                return true;
            }
            rest = more;
        }
        false
    }

    /// Whether the token behind the next one is this one.
    pub fn sees_second(&self, symbol: Terminal) -> bool
        ensures { result ≡ starts (symbol ∷ []) (drop 1 self.now) }
    {
        match self.tokens {
            [_, second, ..] => same_terminal(terminal_of(second), symbol),
            _ => false,
        }
    }

    /// The place of the next token.
    #[tactic(auto, unfolding(crate::specs::Reader::here))]
    pub fn here(&self) -> Result<At, Halt<NoTree>>
        ensures { Reads (spec.here self.now) result self.now }
    {
        match self.tokens {
            [] => Err(Halt::Because(NoTree)),
            [token, ..] => Ok(At {
                line: token.line,
                column: token.column,
            }),
        }
    }

    /// The next token, where it is this one, and the cursor behind it.
    fn split(&self, symbol: Terminal) -> Option<(Token<'a>, Cursor<'a>)>
        ensures { MatchOption result (starts (symbol ∷ []) self.now ≡ false) (λ found.
            (starts (symbol ∷ []) self.now ≡ true) × (self.now ≡ lexeme found.0 ∷ found.1)) }
    {
        if !self.sees(symbol) {
            return None;
        }
        match self.tokens {
            [] => None,
            [token, rest @ ..] => Some((*token, Cursor::new(rest))),
        }
    }

    /// Passes over the next token, which is this one.
    #[tactic(auto, unfolding(crate::specs::Reader::spelled))]
    pub fn expect(&mut self, symbol: Terminal) -> Result<(), Halt<NoTree>>
        ensures { Reads (spec.mark symbol self.old) result self.new }
    {
        match self.split(symbol) {
            None => Err(Halt::Because(NoTree)),
            Some((_, rest)) => {
                *self = rest;
                Ok(())
            }
        }
    }

    /// The spelling of the next token, which is this one.
    #[tactic(auto, unfolding(crate::specs::Reader::spelled))]
    pub fn name(&mut self, alloc: Global, symbol: Terminal) -> Result<Name, Halt<NoTree>>
        ensures { Reads (spec.name symbol self.old) result self.new }
    {
        match self.split(symbol) {
            None => Err(Halt::Because(NoTree)),
            Some((token, rest)) => {
                *self = rest;
                Ok(Name::of(alloc, token.text)?)
            }
        }
    }

    /// The value of the next token, an Int.
    #[tactic(auto, unfolding(crate::specs::Reader::spelled))]
    pub fn int(&mut self) -> Result<i64, Halt<NoTree>>
        ensures { Reads (spec.spelled k.Int spelling.int_value self.old) result self.new }
    {
        match self.split(Terminal::Int) {
            None => Err(Halt::Because(NoTree)),
            Some((token, rest)) => {
                *self = rest;
                int_value(token.text).ok_or(Halt::Because(NoTree))
            }
        }
    }

    /// The value of the next token, a Char.
    #[tactic(auto, unfolding(crate::specs::Reader::spelled))]
    pub fn character(&mut self, alloc: Global) -> Result<char, Halt<NoTree>>
        ensures { Reads (spec.spelled k.Char spelling.char_value self.old) result self.new }
    {
        match self.split(Terminal::Char) {
            None => Err(Halt::Because(NoTree)),
            Some((token, rest)) => {
                *self = rest;
                char_value(alloc, token.text)?.ok_or(Halt::Because(NoTree))
            }
        }
    }

    /// The value of the next token, a Text.
    #[tactic(auto, unfolding(crate::specs::Reader::spelled))]
    pub fn text(&mut self, alloc: Global) -> Result<Name, Halt<NoTree>>
        ensures { Reads (spec.spelled k.Text spelling.text_value self.old) result self.new }
    {
        match self.split(Terminal::Text) {
            None => Err(Halt::Because(NoTree)),
            Some((token, rest)) => {
                *self = rest;
                text_value(alloc, token.text)?.ok_or(Halt::Because(NoTree))
            }
        }
    }

    /// What stands behind the point of the next token, an access or a field function as the terminal says.
    #[tactic(auto, unfolding(crate::specs::Reader::spelled))]
    pub fn label(&mut self, alloc: Global, symbol: Terminal) -> Result<Name, Halt<NoTree>>
        ensures { Reads (spec.spelled symbol spelling.label_of self.old) result self.new }
    {
        match self.split(symbol) {
            None => Err(Halt::Because(NoTree)),
            Some((token, rest)) => {
                *self = rest;
                label_of(alloc, token.text)?.ok_or(Halt::Because(NoTree))
            }
        }
    }

    /// The next name, without modules before it, and its place.
    #[tactic(auto, unfolding(crate::specs::Reader::spot))]
    pub fn spot(&mut self, alloc: Global) -> Result<Spot, Halt<NoTree>>
        ensures { Reads (spec.spot self.old) result self.new }
    {
        let at = self.here()?;
        let name = self.name(alloc, Terminal::Lower)?;
        Ok(Spot { at, name })
    }

    pub fn len(&self) -> usize
        ensures { result ≡ length self.now }
    {
        self.tokens.len()
    }

    /// Whether the next token stands in this column.
    pub fn stands_in(&self, column: u32) -> bool
        ensures { result ≡ spec.stands_in column self.now }
    {
        match self.tokens {
            [] => false,
            [token, ..] => token.column == column,
        }
    }

    /// How many tokens an item takes at most: the first, and those to the right of the column.
    pub fn extent(&self, column: u32) -> usize
        ensures value { result ≡ spec.extent column self.now }
        ensures within { result ≤ length self.now }
    {
        match self.tokens {
            [] => 0,
            [_, rest @ ..] => 1 + right(rest, column),
        }
    }

    /// The first so many tokens.
    #[tactic(auto, using(crate::proofs::Cut::cut))]
    pub fn front(&self, len: usize) -> Cursor<'a>
        requires { len ≤ length self.now }
        ensures { result ≡ take len self.now }
    {
        Cursor::new(&self.tokens[..len])
    }

    /// Passes over the first so many tokens.
    #[tactic(auto, using(crate::proofs::Cut::cut))]
    pub fn advance(&mut self, len: usize)
        requires { len ≤ length self.old }
        ensures { self.new ≡ drop len self.old }
    {
        *self = Cursor::new(rest(self.tokens, len));
    }
}

/// How many tokens at the front stand to the right of the column.
fn right(tokens: &[Token<'_>], column: u32) -> usize
    ensures value { result ≡ spec.right column (map lexeme tokens.now) }
    ensures within { result ≤ length tokens.now }
{
    let mut count = 0;
    for token in tokens {
        if token.column <= column {
            return count;
        }
        count += 1;
    }
    count
}

fn rest<'s, 'a>(tokens: &'s [Token<'a>], len: usize) -> &'s [Token<'a>]
    requires { len ≤ length tokens.now }
    ensures { result.now ≡ drop len tokens.now }
{
    let (_, rest) = tokens.split_at(len);
    rest
}
