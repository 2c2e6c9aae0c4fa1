//! How deep expressions and declarations nest, against a limit. The limit bounds the recursion.
ghost use Rattle.std.specs.Prelude.{◌≡◌, ◌<◌, ◌≤◌, ◌+◌, ◌↔◌, max, IsTrue, MatchOption, map};
ghost use Rattle.tree_nesting.specs.Nesting.{around, most, pattern_nesting, type_nesting};
ghost use Rattle.tree_nesting.specs.ExpressionNesting.{branches_of, declaration_nesting, expr_nesting, guards_of, set_nesting};

use crate::nesting::{
    pattern_nests_below, pattern_nests_within, patterns_nest_below, type_nests_within,
};
use elm_base::{Constructor, Declaration, Expr, Pattern, Set, TypeTree};

/// What is left of a limit for parts that count deeper by `count`.
fn left_of(limit: u32, count: usize) -> Option<u32>
    ensures { MatchOption result (limit < count) (λ left. left + count ≡ limit) }
{
    let count = u32::try_from(count).ok()?;
    limit.checked_sub(count)
}

fn types_nest_within(trees: &[TypeTree], limit: u32) -> bool
    ensures { IsTrue result ↔ (most (map type_nesting trees.now) ≤ limit) }
{
    for tree in trees {
        if !type_nests_within(tree, limit) {
            return false;
        }
    }
    true
}

fn constructors_nest_within(constructors: &[Constructor], limit: u32) -> bool
    ensures { IsTrue result ↔ (most (map (λ made. most (map type_nesting made.arguments)) constructors.now) ≤ limit) }
{
    for made in constructors {
        if !types_nest_within(made.arguments.as_slice(), limit) {
            return false;
        }
    }
    true
}

fn patterns_nest_within(trees: &[Pattern], limit: u32) -> bool
    ensures { IsTrue result ↔ (most (map pattern_nesting trees.now) ≤ limit) }
{
    for tree in trees {
        if !pattern_nests_within(tree, limit) {
            return false;
        }
    }
    true
}

/// Whether the expression nests at most so deep.
#[cycle(expressions)]
pub fn expr_nests_within(tree: &Expr, limit: u32) -> bool
    ensures { IsTrue result ↔ (expr_nesting tree.now ≤ limit) }
{
    match tree {
        Expr::Chain {
            operands,
            operators,
            ..
        } => exprs_nest_within(operands.as_slice(), operators.len(), limit),
        Expr::Call {
            function,
            arguments,
            ..
        } => {
            body_nests_within(function.get(), arguments.len(), limit)
                && exprs_nest_within(arguments.as_slice(), arguments.len(), limit)
        }
        Expr::Lambda { patterns, body, .. } => {
            patterns_nest_below(patterns.as_slice(), limit)
                && body_nests_within(body.get(), patterns.len(), limit)
        }
        Expr::Binary { left, right, .. } => {
            expr_nests_below(left.get(), limit) && expr_nests_below(right.get(), limit)
        }
        Expr::Range { low, high, .. } => {
            expr_nests_below(low.get(), limit) && expr_nests_below(high.get(), limit)
        }
        Expr::If {
            condition,
            yes,
            no,
            ..
        } => {
            expr_nests_below(condition.get(), limit)
                && expr_nests_below(yes.get(), limit)
                && expr_nests_below(no.get(), limit)
        }
        Expr::Negate { inner, .. } => expr_nests_below(inner.get(), limit),
        Expr::Brackets { inner, .. } => expr_nests_below(inner.get(), limit),
        Expr::Access { from, .. } => expr_nests_below(from.get(), limit),
        Expr::Tuple { parts, .. } => exprs_nest_below(parts.as_slice(), limit),
        Expr::List { parts, .. } => exprs_nest_below(parts.as_slice(), limit),
        Expr::Fields { fields, .. } => sets_nest_below(fields.as_slice(), limit),
        Expr::Extend { from, fields, .. } => {
            expr_nests_below(from.get(), limit) && sets_nest_below(fields.as_slice(), limit)
        }
        Expr::Update { from, fields, .. } => {
            expr_nests_below(from.get(), limit) && sets_nest_below(fields.as_slice(), limit)
        }
        Expr::Remove { from, fields, .. } => {
            expr_nests_below(from.get(), limit) && sets_nest_below(fields.as_slice(), limit)
        }
        Expr::Guards { .. } => guards_nest_below(tree, limit),
        Expr::Let {
            definitions,
            body,
            ..
        } => {
            expr_nests_below(body.get(), limit)
                && declarations_nest_below(definitions.as_slice(), limit)
        }
        Expr::Case { scrutinee, .. } => {
            expr_nests_below(scrutinee.get(), limit) && branches_nest_below(tree, limit)
        }
        _ => true,
    }
}

/// Whether the expression, counted deeper by `count`, nests at most so deep.
#[cycle(expressions)]
fn body_nests_within(tree: &Expr, count: usize, limit: u32) -> bool
    ensures { IsTrue result ↔ (count + expr_nesting tree.now ≤ limit) }
{
    match left_of(limit, count) {
        None => false,
        Some(left) => expr_nests_within(tree, left),
    }
}

/// Whether the expression nests less deep.
#[cycle(expressions)]
fn expr_nests_below(tree: &Expr, limit: u32) -> bool
    ensures { IsTrue result ↔ (expr_nesting tree.now < limit) }
{
    limit > 0 && expr_nests_within(tree, limit - 1)
}

/// Whether the expressions, counted deeper by `count`, nest at most so deep.
#[cycle(expressions)]
fn exprs_nest_within(trees: &[Expr], count: usize, limit: u32) -> bool
    ensures { IsTrue result ↔ (count + most (map expr_nesting trees.now) ≤ limit) }
{
    let Some(left) = left_of(limit, count) else {
        return false;
    };
    for tree in trees {
        if !expr_nests_within(tree, left) {
            return false;
        }
    }
    true
}

#[cycle(expressions)]
fn exprs_nest_below(trees: &[Expr], limit: u32) -> bool
    ensures { IsTrue result ↔ (around (map expr_nesting trees.now) ≤ limit) }
{
    for tree in trees {
        if !expr_nests_below(tree, limit) {
            return false;
        }
    }
    true
}

#[cycle(expressions)]
fn sets_nest_below(sets: &[Set], limit: u32) -> bool
    ensures { IsTrue result ↔ (around (map set_nesting sets.now) ≤ limit) }
{
    for set in sets {
        if !expr_nests_below(&set.value, limit) {
            return false;
        }
    }
    true
}

/// Whether the branches of a multi-way `if` nest less deep. Another expression has none.
#[cycle(expressions)]
fn guards_nest_below(tree: &Expr, limit: u32) -> bool
    ensures { IsTrue result ↔
        (around (map (λ branch. max (expr_nesting branch.0) (expr_nesting branch.1)) (guards_of tree.now)) ≤ limit) }
{
    let Expr::Guards { branches, .. } = tree else {
        return true;
    };
    let branches = branches.as_slice();
    for (condition, chosen) in branches {
        if !expr_nests_below(condition, limit) {
            return false;
        }
        if !expr_nests_below(chosen, limit) {
            return false;
        }
    }
    true
}

/// Whether the branches of a `case` nest less deep. Another expression has none.
#[cycle(expressions)]
fn branches_nest_below(tree: &Expr, limit: u32) -> bool
    ensures { IsTrue result ↔
        (around (map (λ branch. max (pattern_nesting branch.0) (expr_nesting branch.1)) (branches_of tree.now)) ≤ limit) }
{
    let Expr::Case { branches, .. } = tree else {
        return true;
    };
    let branches = branches.as_slice();
    for (pattern, chosen) in branches {
        if !pattern_nests_below(pattern, limit) {
            return false;
        }
        if !expr_nests_below(chosen, limit) {
            return false;
        }
    }
    true
}

#[cycle(expressions)]
fn declarations_nest_below(declarations: &[Declaration], limit: u32) -> bool
    ensures { IsTrue result ↔ (around (map declaration_nesting declarations.now) ≤ limit) }
{
    for declaration in declarations {
        if !declaration_nests_below(declaration, limit) {
            return false;
        }
    }
    true
}

/// Whether the declaration nests less deep.
#[cycle(expressions)]
fn declaration_nests_below(tree: &Declaration, limit: u32) -> bool
    ensures { IsTrue result ↔ (declaration_nesting tree.now < limit) }
{
    limit > 0 && declaration_nests_within(tree, limit - 1)
}

/// Whether the declaration nests at most so deep.
#[cycle(expressions)]
pub fn declaration_nests_within(tree: &Declaration, limit: u32) -> bool
    ensures { IsTrue result ↔ (declaration_nesting tree.now ≤ limit) }
{
    match tree {
        Declaration::Union { constructors, .. } => {
            constructors_nest_within(constructors.as_slice(), limit)
        }
        Declaration::Alias { written, .. } => type_nests_within(written, limit),
        Declaration::Annotation { written, .. } => type_nests_within(written, limit),
        Declaration::PortAnnotation { written, .. } => type_nests_within(written, limit),
        Declaration::Native { written, .. } => type_nests_within(written, limit),
        Declaration::Device { written, .. } => type_nests_within(written, limit),
        Declaration::Definition { patterns, body, .. } => {
            patterns_nest_within(patterns.as_slice(), limit)
                && body_nests_within(body, patterns.len(), limit)
        }
        Declaration::PatternDefinition { pattern, body, .. } => {
            pattern_nests_within(pattern, limit) && expr_nests_within(body, limit)
        }
        Declaration::PortDefinition { body, .. } => expr_nests_within(body, limit),
        Declaration::Levels { .. } => true,
        Declaration::Opaque { .. } => true,
    }
}
