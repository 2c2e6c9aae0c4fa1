//! Atoms without parts.
ghost use Rattle.grammar.specs.Reader.{Reads};
ghost use Rattle.expr_grammar.specs.ExprReader as spec;

use crate::operators::any_lower;
use elm_base::{Expr, Halt};
use grammar::{Cursor, NoTree, Terminal};
use std::alloc::Global;

#[tactic(auto, unfolding(expr_grammar::specs::ExprReader::int))]
pub fn int(tokens: &mut Cursor<'_>) -> Result<Expr, Halt<NoTree>>
    ensures { Reads (spec.int tokens.old) result tokens.new }
{
    let at = tokens.here()?;
    let value = tokens.int()?;
    Ok(Expr::Int { at, value })
}

#[tactic(auto, unfolding(expr_grammar::specs::ExprReader::char_))]
pub fn character(alloc: Global, tokens: &mut Cursor<'_>) -> Result<Expr, Halt<NoTree>>
    ensures { Reads (spec.char_ tokens.old) result tokens.new }
{
    let at = tokens.here()?;
    let value = tokens.character(alloc)?;
    Ok(Expr::Char { at, value })
}

#[tactic(auto, unfolding(expr_grammar::specs::ExprReader::text))]
pub fn text(alloc: Global, tokens: &mut Cursor<'_>) -> Result<Expr, Halt<NoTree>>
    ensures { Reads (spec.text tokens.old) result tokens.new }
{
    let at = tokens.here()?;
    let value = tokens.text(alloc)?;
    Ok(Expr::Text { at, value })
}

#[tactic(auto, unfolding(expr_grammar::specs::ExprReader::variable))]
pub fn variable(alloc: Global, tokens: &mut Cursor<'_>) -> Result<Expr, Halt<NoTree>>
    ensures { Reads (spec.variable tokens.old) result tokens.new }
{
    let at = tokens.here()?;
    let name = any_lower(alloc, tokens)?;
    Ok(Expr::Variable { at, name })
}

#[tactic(auto, unfolding(expr_grammar::specs::ExprReader::constructor))]
pub fn constructor(alloc: Global, tokens: &mut Cursor<'_>) -> Result<Expr, Halt<NoTree>>
    ensures { Reads (spec.constructor tokens.old) result tokens.new }
{
    let at = tokens.here()?;
    let name = tokens.name(alloc, Terminal::Upper)?;
    Ok(Expr::Constructor { at, name })
}

#[tactic(auto, unfolding(expr_grammar::specs::ExprReader::field_function))]
pub fn field_function(alloc: Global, tokens: &mut Cursor<'_>) -> Result<Expr, Halt<NoTree>>
    ensures { Reads (spec.field_function tokens.old) result tokens.new }
{
    let at = tokens.here()?;
    let label = tokens.label(alloc, Terminal::FieldFunction)?;
    Ok(Expr::FieldFunction { at, label })
}
