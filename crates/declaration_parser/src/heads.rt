//! Headers and imports.
ghost use Rattle.grammar.specs.Reader.{Reads};
ghost use Rattle.module_grammar.specs.DeclarationReader as spec;

use crate::exposing::exposing_list;
use crate::names::upper;
use elm_base::{Exposing, Halt, Import, Name};
use grammar::{Cursor, NoTree, Terminal, terminated};
use module_grammar::Header;
use std::alloc::Global;

/// What a header exposes: without a list all.
#[tactic(auto, unfolding(module_grammar::specs::DeclarationReader::header_exposing))]
fn header_exposing(alloc: Global, tokens: &mut Cursor<'_>) -> Result<Exposing, Halt<NoTree>>
    ensures { Reads (spec.header_exposing tokens.old) result tokens.new }
{
    if tokens.sees(Terminal::LeftParen) {
        exposing_list(alloc, tokens)
    } else {
        Ok(Exposing::All)
    }
}

#[tactic(auto, unfolding(module_grammar::specs::DeclarationReader::header))]
pub fn header(alloc: Global, tokens: &mut Cursor<'_>) -> Result<Header, Halt<NoTree>>
    ensures { Reads (spec.header tokens.old) result tokens.new }
{
    let at = tokens.here()?;
    tokens.expect(Terminal::Module)?;
    let name = tokens.name(alloc, Terminal::Upper)?;
    let exposes = terminated(header_exposing(alloc, tokens)?, tokens, Terminal::Where)?;
    Ok(Header { at, name, exposes })
}

/// The name behind `as`, if one stands there.
#[tactic(auto, unfolding(module_grammar::specs::DeclarationReader::import_alias))]
fn import_alias(alloc: Global, tokens: &mut Cursor<'_>) -> Result<Option<Name>, Halt<NoTree>>
    ensures { Reads (spec.import_alias tokens.old) result tokens.new }
{
    if tokens.sees(Terminal::As) {
        tokens.expect(Terminal::As)?;
        Ok(Some(upper(alloc, tokens)?))
    } else {
        Ok(None)
    }
}

/// The list behind `exposing`, if one stands there.
#[tactic(auto, unfolding(module_grammar::specs::DeclarationReader::import_exposing))]
fn import_exposing(alloc: Global, tokens: &mut Cursor<'_>) -> Result<Option<Exposing>, Halt<NoTree>>
    ensures { Reads (spec.import_exposing tokens.old) result tokens.new }
{
    if tokens.sees(Terminal::Exposing) {
        tokens.expect(Terminal::Exposing)?;
        Ok(Some(exposing_list(alloc, tokens)?))
    } else {
        Ok(None)
    }
}

#[tactic(auto, unfolding(module_grammar::specs::DeclarationReader::import_))]
pub fn import(alloc: Global, tokens: &mut Cursor<'_>) -> Result<Import, Halt<NoTree>>
    ensures { Reads (spec.import_ tokens.old) result tokens.new }
{
    let at = tokens.here()?;
    tokens.expect(Terminal::Import)?;
    let module = tokens.name(alloc, Terminal::Upper)?;
    let alias = import_alias(alloc, tokens)?;
    let exposes = import_exposing(alloc, tokens)?;
    Ok(Import {
        at,
        module,
        alias,
        exposes,
    })
}
