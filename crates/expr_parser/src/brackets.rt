//! Brackets: operators and tuple makers in brackets, `()`, an expression in brackets, and tuples.
ghost use Rattle.std.specs.Prelude.{◌≡◌, ◌≤◌, false, [], ◌∷◌, length, IfOk};
ghost use Rattle.grammar.specs.declared.terminal.Terminal.TheVariants as k;
ghost use Rattle.grammar.specs.Reader.{Reads, mark};
ghost use Rattle.grammar.specs.Lists as lists;
ghost use Rattle.expr_grammar.specs.Expressions as grammar;
ghost use Rattle.expr_grammar.specs.ExprReader as spec;
ghost use Rattle.expr_parser.specs.ExprCalls.{ReadsExprs};
ghost use Rattle.expr_parser.specs.Places.{placed};

use crate::begins::{EXPRESSIONS, SIGNS};
use crate::exprs::Exprs;
use crate::operators::sign;
use elm_base::{At, Expr, Halt};
use grammar::{Cursor, MOST_PARTS, NoTree, Terminal, separated, some, verified};
use sqlite_items::{Boxed, Items};
use std::alloc::{AllocError, Global};

/// A tuple maker has at most so many commas.
const MOST_COMMAS: usize = 8;

/// An operator and the closing bracket behind it.
#[tactic(auto, unfolding(expr_grammar::specs::ExprReader::operator_name))]
fn operator_name(alloc: Global, at: At, tokens: &mut Cursor<'_>) -> Result<Expr, Halt<NoTree>>
    ensures { Reads (placed at spec.operator_name tokens.old) result tokens.new }
{
    let name = sign(alloc, tokens)?;
    tokens.expect(Terminal::RightParen)?;
    Ok(Expr::OperatorName { at, name })
}

fn some_commas(alloc: Global, tokens: &mut Cursor<'_>) -> Result<Items<()>, Halt<NoTree>>
    ensures { Reads (lists.some (k.Comma ∷ []) (mark k.Comma) tokens.old) result tokens.new }
{
    let next = |tokens: &mut Cursor<'_>| tokens.expect(Terminal::Comma);
    some(alloc, &[Terminal::Comma], next, tokens)
}

/// The commas of a tuple maker, one at least.
#[tactic(auto, unfolding(expr_grammar::specs::ExprReader::commas))]
fn commas(alloc: Global, tokens: &mut Cursor<'_>) -> Result<Items<()>, Halt<NoTree>>
    ensures value { Reads (spec.commas tokens.old) result tokens.new }
    ensures within { IfOk result (λ commas. length commas ≤ MOST_COMMAS) }
{
    let found = some_commas(alloc, tokens)?;
    if found.len() <= MOST_COMMAS {
        Ok(found)
    } else {
        Err(Halt::Because(NoTree))
    }
}

/// Commas alone and the closing bracket behind them.
#[tactic(auto, unfolding(expr_grammar::specs::ExprReader::tuple_maker))]
fn tuple_maker(alloc: Global, at: At, tokens: &mut Cursor<'_>) -> Result<Expr, Halt<NoTree>>
    ensures { Reads (placed at spec.tuple_maker tokens.old) result tokens.new }
{
    let commas = commas(alloc, tokens)?;
    tokens.expect(Terminal::RightParen)?;
    let parts = commas.len() as u32 + 1;
    Ok(Expr::TupleMaker { at, parts })
}

/// What brackets round these expressions make.
fn enclosed(alloc: Global, at: At, mut parts: Items<Expr>) -> Result<Expr, AllocError>
    ensures { IfOk result (λ tree. tree ≡ grammar.enclosed (at, parts)) }
{
    if parts.is_empty() {
        return Ok(Expr::Unit { at });
    }
    if parts.len() == 1 {
        let inner = Boxed::new(alloc, parts.remove(0))?;
        return Ok(Expr::Brackets { at, inner });
    }
    Ok(Expr::Tuple { at, parts })
}

impl<F: Fn(Global, bool, usize, &mut Cursor<'_>) -> Result<Expr, Halt<NoTree>>> Exprs<F> {
    /// One or more expressions with commas between.
    fn wholes(&self, tokens: &mut Cursor<'_>) -> Result<Items<Expr>, Halt<NoTree>>
        requires { ReadsExprs self.now.depth (F.pre self.now.below) (F.post self.now.below) }
        ensures { Reads (spec.wholes (spec.below self.now.depth) tokens.old) result tokens.new }
    {
        let next = |tokens: &mut Cursor<'_>| self.whole(tokens);
        separated(self.alloc, next, tokens)
    }

    #[tactic(auto, unfolding(expr_grammar::specs::ExprReader::any_parts))]
    fn any_parts(&self, tokens: &mut Cursor<'_>) -> Result<Items<Expr>, Halt<NoTree>>
        requires { ReadsExprs self.now.depth (F.pre self.now.below) (F.post self.now.below) }
        ensures { Reads (spec.any_parts (spec.below self.now.depth) tokens.old) result tokens.new }
    {
        if !tokens.sees_any(&EXPRESSIONS) {
            return Ok(Items::new(self.alloc));
        }
        let found = self.wholes(tokens)?;
        if found.len() <= MOST_PARTS {
            Ok(found)
        } else {
            Err(Halt::Because(NoTree))
        }
    }

    /// No expression, one, or the parts of a tuple, and the closing bracket.
    #[tactic(auto, unfolding(expr_grammar::specs::ExprReader::parts))]
    fn parts(&self, at: At, tokens: &mut Cursor<'_>) -> Result<Expr, Halt<NoTree>>
        requires { ReadsExprs self.now.depth (F.pre self.now.below) (F.post self.now.below) }
        ensures { Reads (placed at (spec.parts (spec.below self.now.depth)) tokens.old)
            result tokens.new }
    {
        let parts = self.any_parts(tokens)?;
        tokens.expect(Terminal::RightParen)?;
        Ok(enclosed(self.alloc, at, parts)?)
    }

    #[tactic(auto, unfolding(expr_grammar::specs::ExprReader::inside_brackets))]
    fn inside_brackets(&self, at: At, tokens: &mut Cursor<'_>) -> Result<Expr, Halt<NoTree>>
        requires { ReadsExprs self.now.depth (F.pre self.now.below) (F.post self.now.below) }
        ensures { Reads (placed at (spec.inside_brackets (spec.below self.now.depth)) tokens.old)
            result tokens.new }
    {
        if tokens.sees_any(&SIGNS) && tokens.sees_second(Terminal::RightParen) {
            operator_name(self.alloc, at, tokens)
        } else if tokens.sees(Terminal::Comma) {
            tuple_maker(self.alloc, at, tokens)
        } else {
            self.parts(at, tokens)
        }
    }

    /// All that stands in round brackets.
    #[tactic(auto, unfolding(expr_grammar::specs::ExprReader::brackets))]
    pub fn brackets(&self, tokens: &mut Cursor<'_>) -> Result<Expr, Halt<NoTree>>
        requires { ReadsExprs self.now.depth (F.pre self.now.below) (F.post self.now.below) }
        ensures { Reads (spec.brackets (spec.below self.now.depth) tokens.old) result tokens.new }
    {
        let at = tokens.here()?;
        tokens.expect(Terminal::LeftParen)?;
        self.inside_brackets(at, tokens)
    }
}
