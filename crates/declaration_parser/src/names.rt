//! Names in headers, imports and declarations.
ghost use Rattle.std.specs.Prelude.{◌≡◌};
ghost use Rattle.grammar.specs.Terminals as terminals;
ghost use Rattle.grammar.specs.Lists as list;
ghost use Rattle.grammar.specs.Reader.{Reads};
ghost use Rattle.module_grammar.specs.DeclarationReader as spec;

use elm_base::{Halt, Name, Spot};
use expr_parser::sign;
use grammar::{Cursor, NoTree, Terminal, many, separated, terminated, verified};
use sqlite_items::Items;
use std::alloc::Global;

/// Whether names of modules stand before the name.
fn is_qualified(text: &[u8]) -> bool
    ensures { result ≡ terminals.is_qualified text.now }
{
    text.iter().any(|byte| *byte == b'.')
}

/// A name that begins with an upper-case letter, without modules before it.
#[tactic(auto, unfolding(module_grammar::specs::DeclarationReader::upper))]
pub fn upper(alloc: Global, tokens: &mut Cursor<'_>) -> Result<Name, Halt<NoTree>>
    ensures { Reads (spec.upper tokens.old) result tokens.new }
{
    let name = tokens.name(alloc, Terminal::Upper)?;
    let is_plain = !is_qualified(name.bytes());
    verified(name, is_plain, Halt::Because(NoTree))
}

#[tactic(auto, unfolding(module_grammar::specs::DeclarationReader::upper_spot))]
pub fn upper_spot(alloc: Global, tokens: &mut Cursor<'_>) -> Result<Spot, Halt<NoTree>>
    ensures { Reads (spec.upper_spot tokens.old) result tokens.new }
{
    let at = tokens.here()?;
    let name = upper(alloc, tokens)?;
    Ok(Spot { at, name })
}

/// One or more of them with commas between.
pub fn upper_spots(alloc: Global, tokens: &mut Cursor<'_>) -> Result<Items<Spot>, Halt<NoTree>>
    ensures { Reads (list.separated spec.upper_spot tokens.old) result tokens.new }
{
    let next = |tokens: &mut Cursor<'_>| upper_spot(alloc, tokens);
    separated(alloc, next, tokens)
}

/// An operator in brackets.
#[tactic(auto, unfolding(module_grammar::specs::DeclarationReader::bracketed))]
pub fn bracketed(alloc: Global, tokens: &mut Cursor<'_>) -> Result<Name, Halt<NoTree>>
    ensures { Reads (spec.bracketed tokens.old) result tokens.new }
{
    tokens.expect(Terminal::LeftParen)?;
    terminated(sign(alloc, tokens)?, tokens, Terminal::RightParen)
}

/// The name that a definition or an annotation begins with.
#[tactic(auto, unfolding(module_grammar::specs::DeclarationReader::own_name))]
pub fn own_name(alloc: Global, tokens: &mut Cursor<'_>) -> Result<Name, Halt<NoTree>>
    ensures { Reads (spec.own_name tokens.old) result tokens.new }
{
    if tokens.sees(Terminal::Lower) {
        tokens.name(alloc, Terminal::Lower)
    } else {
        bracketed(alloc, tokens)
    }
}

/// The names of parameters.
#[tactic(auto, unfolding(module_grammar::specs::DeclarationReader::variables))]
pub fn variables(alloc: Global, tokens: &mut Cursor<'_>) -> Result<Items<Spot>, Halt<NoTree>>
    ensures { Reads (spec.variables tokens.old) result tokens.new }
{
    let next = |tokens: &mut Cursor<'_>| tokens.spot(alloc);
    many(alloc, &[Terminal::Lower], next, tokens)
}
