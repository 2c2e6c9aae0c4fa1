//! What is left of a text that is read.
ghost use Rattle.std.specs.Prelude.{◌≡◌, ◌≤◌, Some, None, length, MatchBool};
ghost use Rattle.port_texts.specs.Reader as spec;
ghost use Rattle.port_texts.specs.Reader.{Reads};

use crate::head::{Head, find_head};
use crate::read::BadPortText;
use elm_base::{Halt, Name};
use std::alloc::Global;
use std::marker::Model;

/// What is left of a text. Contracts see it as these bytes.
#[derive(Drop)]
pub struct Left<'a> {
    text: &'a [u8],
}

impl<'a> Model for Left<'a> {
    ghost use Rattle.std.specs.Prelude.{List, ℕ};

    ghost Value = { List ℕ };

    ghost view = { λ left. left.text.now };
}

/// How many bytes stand before the first space.
fn word_len(text: &[u8]) -> usize
    ensures first { result ≡ spec.word_len text.now }
    ensures within { result ≤ length text.now }
{
    let mut left = text;
    while let [byte, rest @ ..] = left {
        if *byte == b' ' {
            break;
        }
        left = rest;
    }
    text.len() - left.len()
}

impl<'a> Left<'a> {
    pub fn new(text: &'a [u8]) -> Left<'a>
        ensures { result ≡ text.now }
    {
        Left { text }
    }

    pub fn len(&self) -> usize
        ensures { result ≡ length self.now }
    {
        self.text.len()
    }

    /// Passes over these bytes, where they stand next.
    pub fn passes(&mut self, start: &[u8]) -> bool
        ensures { MatchBool result (spec.behind start.now self.old ≡ Some self.new)
            ((spec.behind start.now self.old ≡ None) × (self.new ≡ self.old)) }
    {
        match self.text.strip_prefix(start) {
            Some(rest) => {
                self.text = rest;
                true
            }
            None => false,
        }
    }

    /// Passes over these bytes, which stand next.
    pub fn expect(&mut self, start: &[u8]) -> Result<(), Halt<BadPortText>>
        ensures { Reads (spec.mark start.now self.old) result self.new }
    {
        if self.passes(start) {
            Ok(())
        } else {
            Err(Halt::Because(BadPortText))
        }
    }

    /// With what the text goes on.
    pub fn head(&mut self) -> Result<Head, Halt<BadPortText>>
        ensures { Reads (spec.head self.old) result self.new }
    {
        match find_head(self.text) {
            Some((found, rest)) => {
                self.text = rest;
                Ok(found)
            }
            None => Err(Halt::Because(BadPortText)),
        }
    }

    /// The bytes before the next space.
    pub fn word(&mut self, alloc: Global) -> Result<Name, Halt<BadPortText>>
        ensures { Reads (spec.word self.old) result self.new }
    {
        let len = word_len(self.text);
        let name = Name::of(alloc, &self.text[..len])?;
        self.text = &self.text[len..];
        Ok(name)
    }
}
