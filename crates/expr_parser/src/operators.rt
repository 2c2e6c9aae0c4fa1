//! Operators.
ghost use Rattle.grammar.specs.Reader.{Reads};
ghost use Rattle.expr_grammar.specs.ExprReader as spec;

use crate::begins::SIGNS;
use elm_base::{Halt, Name, Operator};
use grammar::{Cursor, NoTree, Terminal};
use std::alloc::Global;

/// The spelling of an operator that isn't a name.
#[tactic(auto, unfolding(expr_grammar::specs::ExprReader::sign))]
pub fn sign(alloc: Global, tokens: &mut Cursor<'_>) -> Result<Name, Halt<NoTree>>
    ensures { Reads (spec.sign tokens.old) result tokens.new }
{
    if tokens.sees(Terminal::Operator) {
        tokens.name(alloc, Terminal::Operator)
    } else if tokens.sees(Terminal::Minus) {
        tokens.name(alloc, Terminal::Minus)
    } else {
        tokens.name(alloc, Terminal::Cons)
    }
}

/// A name that begins with a lower-case letter, with modules before it or without.
#[tactic(auto, unfolding(expr_grammar::specs::ExprReader::any_lower))]
pub fn any_lower(alloc: Global, tokens: &mut Cursor<'_>) -> Result<Name, Halt<NoTree>>
    ensures { Reads (spec.any_lower tokens.old) result tokens.new }
{
    if tokens.sees(Terminal::Lower) {
        tokens.name(alloc, Terminal::Lower)
    } else {
        tokens.name(alloc, Terminal::QualifiedLower)
    }
}

/// A name in backticks.
#[tactic(auto, unfolding(expr_grammar::specs::ExprReader::quoted))]
fn quoted(alloc: Global, tokens: &mut Cursor<'_>) -> Result<Name, Halt<NoTree>>
    ensures { Reads (spec.quoted tokens.old) result tokens.new }
{
    tokens.expect(Terminal::Backtick)?;
    let name = any_lower(alloc, tokens)?;
    tokens.expect(Terminal::Backtick)?;
    Ok(name)
}

/// An operator where it stands between operands.
#[tactic(auto, unfolding(expr_grammar::specs::ExprReader::operator))]
pub fn operator(alloc: Global, tokens: &mut Cursor<'_>) -> Result<Operator, Halt<NoTree>>
    ensures { Reads (spec.operator tokens.old) result tokens.new }
{
    let at = tokens.here()?;
    let name = if tokens.sees_any(&SIGNS) {
        sign(alloc, tokens)?
    } else {
        quoted(alloc, tokens)?
    };
    Ok(Operator { at, name })
}
