//! Chains of operands, and the whole of an expression.
ghost use Rattle.std.specs.Prelude.{◌≡◌, true, false, [], ◌∷◌, List, map, IfOk};
ghost use Rattle.elm_base.specs.declared.tree.Operator.{Operator};
ghost use Rattle.elm_base.specs.declared.tree.Expr.{Expr};
ghost use Rattle.grammar.specs.Reader.{Reads};
ghost use Rattle.expr_grammar.specs.Expressions as grammar;
ghost use Rattle.expr_grammar.specs.ExprReader as spec;
ghost use Rattle.expr_parser.specs.ExprCalls.{ReadsExprs};
ghost use Rattle.expr_parser.specs.Chains.{Added, apart, separately};

use crate::begins::{LAST_FORMS, OPERATORS};
use crate::exprs::Exprs;
use crate::operators::operator;
use elm_base::{At, Expr, Halt, Operator};
use grammar::{Cursor, NoTree, Terminal, paired};
use sqlite_items::Items;
use std::alloc::{AllocError, Global};

/// Puts what was read behind the items.
fn add<T: Drop>(items: &mut Items<T>, read: Result<T, Halt<NoTree>>) -> Result<(), Halt<NoTree>>
    ensures { Added read items.old items.new result }
{
    items.push(read?)?;
    Ok(())
}

/// What a first operand makes with the operators and operands behind it.
fn chained(
    alloc: Global,
    at: At,
    first: Expr,
    operators: Items<Operator>,
    operands: Items<Expr>,
) -> Result<Expr, AllocError>
    ensures { (links : List (Operator × Expr)) → apart links ≡ (operators, operands)
        → IfOk result (λ tree. tree ≡ grammar.chained (at, (first, links))) }
{
    if operators.is_empty() {
        return Ok(first);
    }
    let mut all = Items::new(alloc);
    all.push(first)?;
    all.append(operands)?;
    Ok(Expr::Chain {
        at,
        operands: all,
        operators,
    })
}

/// An expression that needs at most `depth` levels inside each other, or an atom where it is to stand alone.
pub fn tree_at(
    alloc: Global,
    alone: bool,
    depth: usize,
    tokens: &mut Cursor<'_>,
) -> Result<Expr, Halt<NoTree>>
    ensures { Reads (spec.tree_at alone depth tokens.old) result tokens.new }
{
    if depth == 0 {
        return Err(Halt::Because(NoTree));
    }
    let exprs = Exprs {
        alloc,
        depth: depth - 1,
        below: tree_at,
    };
    if alone {
        exprs.atom(tokens)
    } else {
        exprs.level(tokens)
    }
}

impl<F: Fn(Global, bool, usize, &mut Cursor<'_>) -> Result<Expr, Halt<NoTree>>> Exprs<F> {
    /// A form that takes all that stands behind it.
    #[tactic(auto, unfolding(expr_grammar::specs::ExprReader::last_form))]
    fn last_form(&self, tokens: &mut Cursor<'_>) -> Result<Expr, Halt<NoTree>>
        requires { ReadsExprs self.now.depth (F.pre self.now.below) (F.post self.now.below) }
        ensures { Reads (spec.last_form (spec.below self.now.depth) tokens.old) result tokens.new }
    {
        if tokens.sees(Terminal::Backslash) {
            self.lambda(tokens)
        } else if tokens.sees(Terminal::If) {
            self.conditional(tokens)
        } else if tokens.sees(Terminal::Let) {
            self.let_in(tokens)
        } else {
            self.case_of(tokens)
        }
    }

    /// What stands behind an operator: a form that takes all that stands behind it, or an operand.
    fn linked(&self, tokens: &mut Cursor<'_>) -> Result<Expr, Halt<NoTree>>
        requires { ReadsExprs self.now.depth (F.pre self.now.below) (F.post self.now.below) }
        ensures { Reads (spec.linked_operand (spec.below self.now.depth) tokens.old)
            result tokens.new }
    {
        if tokens.sees_any(&LAST_FORMS) {
            self.last_form(tokens)
        } else {
            self.operand(tokens)
        }
    }

    /// The operators and operands behind the first operand. A form that takes all that stands behind it is the last of them.
    fn links(&self, tokens: &mut Cursor<'_>) -> Result<(Items<Operator>, Items<Expr>), Halt<NoTree>>
        requires { ReadsExprs self.now.depth (F.pre self.now.below) (F.post self.now.below) }
        ensures { Reads (separately (spec.links (spec.below self.now.depth)) tokens.old)
            result tokens.new }
    {
        let mut operators = Items::new(self.alloc);
        let mut operands = Items::new(self.alloc);
        'turns: while tokens.sees_any(&OPERATORS) {
            add(&mut operators, operator(self.alloc, tokens))?;
            let is_last = tokens.sees_any(&LAST_FORMS);
            add(&mut operands, self.linked(tokens))?;
            if is_last {
                return Ok((operators, operands));
            }
        }
        Ok((operators, operands))
    }

    fn chain(&self, tokens: &mut Cursor<'_>) -> Result<Expr, Halt<NoTree>>
        requires { ReadsExprs self.now.depth (F.pre self.now.below) (F.post self.now.below) }
        ensures { Reads (spec.chain (spec.below self.now.depth) tokens.old) result tokens.new }
    {
        let at = tokens.here()?;
        let (first, links) = paired(self.operand(tokens)?, self.links(tokens))?;
        let (operators, operands) = links;
        Ok(chained(self.alloc, at, first, operators, operands)?)
    }

    /// A whole expression.
    #[tactic(auto, unfolding(expr_grammar::specs::ExprReader::level))]
    fn level(&self, tokens: &mut Cursor<'_>) -> Result<Expr, Halt<NoTree>>
        requires { ReadsExprs self.now.depth (F.pre self.now.below) (F.post self.now.below) }
        ensures { Reads (spec.level (spec.below self.now.depth) tokens.old) result tokens.new }
    {
        if tokens.sees_any(&LAST_FORMS) {
            self.last_form(tokens)
        } else {
            self.chain(tokens)
        }
    }
}
