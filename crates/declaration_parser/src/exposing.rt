//! Lists of exposed names.
ghost use Rattle.grammar.specs.Lists as list;
ghost use Rattle.grammar.specs.Reader.{Reads};
ghost use Rattle.module_grammar.specs.DeclarationReader as spec;

use crate::names::{bracketed, upper, upper_spots};
use elm_base::{Constructors, Exposing, Halt, Item};
use grammar::{Cursor, NoTree, Terminal, separated, terminated};
use sqlite_items::Items;
use std::alloc::Global;

#[tactic(auto, unfolding(module_grammar::specs::DeclarationReader::all_constructors))]
fn all_constructors(tokens: &mut Cursor<'_>) -> Result<Constructors, Halt<NoTree>>
    ensures { Reads (spec.all_constructors tokens.old) result tokens.new }
{
    tokens.expect(Terminal::DotDot)?;
    Ok(Constructors::All)
}

#[tactic(auto, unfolding(module_grammar::specs::DeclarationReader::listed_constructors))]
fn listed_constructors(alloc: Global, tokens: &mut Cursor<'_>) -> Result<Constructors, Halt<NoTree>>
    ensures { Reads (spec.listed_constructors tokens.old) result tokens.new }
{
    let listed = upper_spots(alloc, tokens)?;
    Ok(Constructors::Listed(listed))
}

/// Behind the bracket that follows a type: all of its constructors, or some.
#[tactic(auto, unfolding(module_grammar::specs::DeclarationReader::shown))]
fn shown(alloc: Global, tokens: &mut Cursor<'_>) -> Result<Constructors, Halt<NoTree>>
    ensures { Reads (spec.shown tokens.old) result tokens.new }
{
    if tokens.sees(Terminal::DotDot) {
        all_constructors(tokens)
    } else {
        listed_constructors(alloc, tokens)
    }
}

#[tactic(auto, unfolding(module_grammar::specs::DeclarationReader::constructors_shown))]
fn constructors_shown(alloc: Global, tokens: &mut Cursor<'_>) -> Result<Constructors, Halt<NoTree>>
    ensures { Reads (spec.constructors_shown tokens.old) result tokens.new }
{
    if !tokens.sees(Terminal::LeftParen) {
        return Ok(Constructors::Hidden);
    }
    tokens.expect(Terminal::LeftParen)?;
    terminated(shown(alloc, tokens)?, tokens, Terminal::RightParen)
}

#[tactic(auto, unfolding(module_grammar::specs::DeclarationReader::value_item))]
fn value_item(alloc: Global, tokens: &mut Cursor<'_>) -> Result<Item, Halt<NoTree>>
    ensures { Reads (spec.value_item tokens.old) result tokens.new }
{
    let at = tokens.here()?;
    let name = tokens.name(alloc, Terminal::Lower)?;
    Ok(Item::Value { at, name })
}

#[tactic(auto, unfolding(module_grammar::specs::DeclarationReader::operator_item))]
fn operator_item(alloc: Global, tokens: &mut Cursor<'_>) -> Result<Item, Halt<NoTree>>
    ensures { Reads (spec.operator_item tokens.old) result tokens.new }
{
    let at = tokens.here()?;
    let name = bracketed(alloc, tokens)?;
    Ok(Item::Operator { at, name })
}

#[tactic(auto, unfolding(module_grammar::specs::DeclarationReader::type_item))]
fn type_item(alloc: Global, tokens: &mut Cursor<'_>) -> Result<Item, Halt<NoTree>>
    ensures { Reads (spec.type_item tokens.old) result tokens.new }
{
    let at = tokens.here()?;
    let name = upper(alloc, tokens)?;
    let constructors = constructors_shown(alloc, tokens)?;
    Ok(Item::Named {
        at,
        name,
        constructors,
    })
}

/// A name in a list of exposed names.
#[tactic(auto, unfolding(module_grammar::specs::DeclarationReader::item))]
fn item(alloc: Global, tokens: &mut Cursor<'_>) -> Result<Item, Halt<NoTree>>
    ensures { Reads (spec.item tokens.old) result tokens.new }
{
    if tokens.sees(Terminal::Lower) {
        value_item(alloc, tokens)
    } else if tokens.sees(Terminal::LeftParen) {
        operator_item(alloc, tokens)
    } else {
        type_item(alloc, tokens)
    }
}

/// One or more of them with commas between.
fn items(alloc: Global, tokens: &mut Cursor<'_>) -> Result<Items<Item>, Halt<NoTree>>
    ensures { Reads (list.separated spec.item tokens.old) result tokens.new }
{
    let next = |tokens: &mut Cursor<'_>| item(alloc, tokens);
    separated(alloc, next, tokens)
}

#[tactic(auto, unfolding(module_grammar::specs::DeclarationReader::all_exposed))]
fn all_exposed(tokens: &mut Cursor<'_>) -> Result<Exposing, Halt<NoTree>>
    ensures { Reads (spec.all_exposed tokens.old) result tokens.new }
{
    tokens.expect(Terminal::DotDot)?;
    Ok(Exposing::All)
}

#[tactic(auto, unfolding(module_grammar::specs::DeclarationReader::items_exposed))]
fn items_exposed(alloc: Global, tokens: &mut Cursor<'_>) -> Result<Exposing, Halt<NoTree>>
    ensures { Reads (spec.items_exposed tokens.old) result tokens.new }
{
    let listed = items(alloc, tokens)?;
    Ok(Exposing::Items(listed))
}

/// Behind a bracket: all names, or one or more.
#[tactic(auto, unfolding(module_grammar::specs::DeclarationReader::exposed))]
fn exposed(alloc: Global, tokens: &mut Cursor<'_>) -> Result<Exposing, Halt<NoTree>>
    ensures { Reads (spec.exposed tokens.old) result tokens.new }
{
    if tokens.sees(Terminal::DotDot) {
        all_exposed(tokens)
    } else {
        items_exposed(alloc, tokens)
    }
}

/// A list of exposed names in brackets.
#[tactic(auto, unfolding(module_grammar::specs::DeclarationReader::exposing_list))]
pub fn exposing_list(alloc: Global, tokens: &mut Cursor<'_>) -> Result<Exposing, Halt<NoTree>>
    ensures { Reads (spec.exposing_list tokens.old) result tokens.new }
{
    tokens.expect(Terminal::LeftParen)?;
    terminated(exposed(alloc, tokens)?, tokens, Terminal::RightParen)
}
