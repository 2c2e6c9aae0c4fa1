//! Chains as expressions.
ghost use Rattle.std.specs.Prelude.{◌≡◌, ◌≢◌, ◌↔◌, ◌++◌, ◌∷◌, [], suc, length, List, None, IsTrue, IfOk, IfErr, IfSome};
ghost use Rattle.elm_base.specs.declared.memory.Halt.TheVariants as halt;
ghost use Rattle.operator_trees.specs.Trees.{HasNoTree};
ghost use Rattle.operator_trees.specs.Binds.{HasClash};
ghost use Rattle.elm_base.specs.declared.tree.Expr.{Expr};
ghost use Rattle.operator_trees.specs.Chains as spec;

use crate::levels::Levels;
use crate::roots::root;
use elm_base::{At, Expr, Halt, NoMemory, Operator};
use sqlite_items::{Boxed, Items};
use std::alloc::Global;
use thiserror::Error;

/// Two operators of a chain have one level, only higher levels between them, and differ in side or group to none.
#[derive(Clone, Copy, Debug, PartialEq, Eq, Error)]
#[error("the operators have no order")]
pub struct Clash;

/// Where an expression begins.
pub fn place(tree: &Expr) -> At
    ensures { result ≡ spec.place tree.now }
{
    match tree {
        Expr::Chain { at, .. }
        | Expr::Binary { at, .. }
        | Expr::Negate { at, .. }
        | Expr::Call { at, .. }
        | Expr::Int { at, .. }
        | Expr::Char { at, .. }
        | Expr::Text { at, .. }
        | Expr::Variable { at, .. }
        | Expr::Constructor { at, .. }
        | Expr::FieldFunction { at, .. }
        | Expr::Access { at, .. }
        | Expr::OperatorName { at, .. }
        | Expr::TupleMaker { at, .. }
        | Expr::Unit { at }
        | Expr::Brackets { at, .. }
        | Expr::Tuple { at, .. }
        | Expr::List { at, .. }
        | Expr::Range { at, .. }
        | Expr::Fields { at, .. }
        | Expr::Extend { at, .. }
        | Expr::Update { at, .. }
        | Expr::Remove { at, .. }
        | Expr::Lambda { at, .. }
        | Expr::If { at, .. }
        | Expr::Guards { at, .. }
        | Expr::Let { at, .. }
        | Expr::Case { at, .. } => *at,
    }
}

fn binary(
    alloc: Global,
    operator: &Operator,
    left: Boxed<Expr>,
    right: Boxed<Expr>,
) -> Result<Boxed<Expr>, NoMemory>
    ensures { IfOk result (λ made. made ≡ spec.binary operator.now left right) }
{
    let name = operator.name.copy(alloc)?;
    let operator = Operator {
        at: operator.at,
        name,
    };
    let tree = Expr::Binary {
        at: place(left.get()),
        operator,
        left,
        right,
    };
    Ok(Boxed::new(alloc, tree)?)
}

/// The last operand, which is taken.
fn last(alloc: Global, operands: &mut Items<Expr>) -> Result<Boxed<Expr>, Halt<Clash>>
    ensures { (front : List Expr) (x : Expr) → operands.old ≡ front ++ x ∷ []
        → spec.Takes front x operands.new result }
{
    match operands.pop() {
        None => Err(Halt::Because(Clash)),
        Some(operand) => Ok(Boxed::new(alloc, operand)?),
    }
}

/// The operators before the root, the root, and those behind it; none where operators clash.
fn cut_at_root<'a>(
    levels: &Levels,
    operators: &'a [Operator],
) -> Option<(&'a [Operator], &'a Operator, &'a [Operator])>
    ensures cut { IfSome result (λ parts. spec.IsCut (spec.binds levels.now.declared) operators.now
        parts.0.now parts.1.now parts.2.now) }
    ensures clash { operators.now ≢ [] → result ≡ None → HasClash (spec.binds levels.now.declared) operators.now }
{
    let left = root(levels, operators)?;
    let (before, from) = operators.split_at(operators.len() - left);
    let (root, after) = from.split_first()?;
    Some((before, root, after))
}

/// The tree of these operators over the last operands, one more than they, which are taken.
fn tree(
    alloc: Global,
    levels: &Levels,
    operators: &[Operator],
    operands: &mut Items<Expr>,
) -> Result<Boxed<Expr>, Halt<Clash>>
    ensures { (front es : List Expr) → operands.old ≡ front ++ es → length es ≡ suc (length operators.now)
        → spec.Builds levels.now.declared front es operators.now operands.new result }
{
    if operators.is_empty() {
        return last(alloc, operands);
    }
    let Some((before, root, after)) = cut_at_root(levels, operators) else {
        return Err(Halt::Because(Clash));
    };
    let right = tree(alloc, levels, after, operands)?;
    let left = tree(alloc, levels, before, operands)?;
    Ok(binary(alloc, root, left, right)?)
}

/// Whether there is one operand more than operators.
fn stand_between(operators: &[Operator], operands: &[Expr]) -> bool
    ensures { IsTrue result ↔ (length operands.now ≡ suc (length operators.now)) }
{
    operators.len() < operands.len() && operands.len() - operators.len() == 1
}

/// The expression of the chain's tree. Refused exactly where there is none: where two operators clash, or where there
/// isn't one operand more than operators.
pub fn chain(
    alloc: Global,
    levels: &Levels,
    operators: &[Operator],
    operands: Items<Expr>,
) -> Result<Expr, Halt<Clash>>
    ensures ok { IfOk result (λ x. spec.Stands levels.now.declared operands operators.now x) }
    ensures refused { IfErr result (λ cause. cause ≢ halt.NoMemory
        → HasNoTree (spec.binds levels.now.declared) operands operators.now) }
{
    let mut operands = operands;
    let stand_between = stand_between(operators, operands.as_slice());
    if !stand_between {
        return Err(Halt::Because(Clash));
    }
    let tree = tree(alloc, levels, operators, &mut operands)?;
    Ok(tree.into_inner())
}
