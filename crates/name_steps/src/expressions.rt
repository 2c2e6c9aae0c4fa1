//! The steps of expressions and declarations.
ghost use Rattle.std.specs.Prelude.{◌≡◌, ◌++◌, OnOk, map};
ghost use Rattle.std.specs.List.{flat_map};
ghost use Rattle.name_steps.specs.Steps as spec;

use crate::declarations::push_block;
use crate::pushes::{
    push_labels, push_made, push_operators, push_pattern, push_patterns, push_use,
};
use crate::step::Step;
use elm_base::{Declaration, Expr, NoMemory, Set};
use sqlite_items::Items;
use std::alloc::Global;

/// Appends what happens to names in an expression.
#[cycle(steps)]
pub fn push_expr(alloc: Global, tree: &Expr, out: &mut Items<Step>) -> Result<(), NoMemory>
    ensures { OnOk result (out.new ≡ out.old ++ (spec.read_of tree.now).steps) }
{
    match tree {
        Expr::Variable { at, name } => push_use(alloc, *at, name, out),
        Expr::Constructor { at, name } => push_use(alloc, *at, name, out),
        Expr::OperatorName { at, name } => push_use(alloc, *at, name, out),
        Expr::Negate { inner, .. } => push_expr(alloc, inner.get(), out),
        Expr::Brackets { inner, .. } => push_expr(alloc, inner.get(), out),
        Expr::Access { from, .. } => push_expr(alloc, from.get(), out),
        Expr::Tuple { parts, .. } => push_exprs(alloc, parts.as_slice(), out),
        Expr::List { parts, .. } => push_exprs(alloc, parts.as_slice(), out),
        Expr::Fields { fields, .. } => push_fields(alloc, fields.as_slice(), out),
        Expr::Lambda { .. } => push_lambda(alloc, tree, out),
        Expr::Guards { .. } => push_guards(alloc, tree, out),
        Expr::Let { .. } => push_let(alloc, tree, out),
        Expr::Chain { .. } => push_joined(alloc, tree, out),
        Expr::Binary { .. } => push_joined(alloc, tree, out),
        Expr::Call { .. } => push_joined(alloc, tree, out),
        Expr::Range { .. } => push_joined(alloc, tree, out),
        Expr::If { .. } => push_joined(alloc, tree, out),
        Expr::Extend { .. } => push_joined(alloc, tree, out),
        Expr::Update { .. } => push_joined(alloc, tree, out),
        Expr::Remove { .. } => push_joined(alloc, tree, out),
        Expr::Case { .. } => push_joined(alloc, tree, out),
        _ => Ok(()),
    }
}

/// An expression with parts one behind the other. Another form has none here.
#[cycle(steps)]
fn push_joined(alloc: Global, tree: &Expr, out: &mut Items<Step>) -> Result<(), NoMemory>
    ensures { OnOk result (out.new ≡ out.old ++ spec.joined_of tree.now) }
{
    match tree {
        Expr::Chain {
            operands,
            operators,
            ..
        } => {
            push_exprs(alloc, operands.as_slice(), out)?;
            push_operators(alloc, operators.as_slice(), out)
        }
        Expr::Binary {
            operator,
            left,
            right,
            ..
        } => {
            push_expr(alloc, left.get(), out)?;
            push_use(alloc, operator.at, &operator.name, out)?;
            push_expr(alloc, right.get(), out)
        }
        Expr::Call {
            function,
            arguments,
            ..
        } => {
            push_expr(alloc, function.get(), out)?;
            push_exprs(alloc, arguments.as_slice(), out)
        }
        Expr::Range { low, high, .. } => {
            push_expr(alloc, low.get(), out)?;
            push_expr(alloc, high.get(), out)
        }
        Expr::If {
            condition,
            yes,
            no,
            ..
        } => {
            push_expr(alloc, condition.get(), out)?;
            push_expr(alloc, yes.get(), out)?;
            push_expr(alloc, no.get(), out)
        }
        Expr::Extend { from, fields, .. } => {
            push_expr(alloc, from.get(), out)?;
            push_fields(alloc, fields.as_slice(), out)
        }
        Expr::Update { from, fields, .. } => {
            push_expr(alloc, from.get(), out)?;
            push_fields(alloc, fields.as_slice(), out)
        }
        Expr::Remove { from, fields, .. } => {
            push_expr(alloc, from.get(), out)?;
            push_fields(alloc, fields.as_slice(), out)
        }
        Expr::Case { scrutinee, .. } => {
            push_expr(alloc, scrutinee.get(), out)?;
            push_branches(alloc, tree, out)
        }
        _ => Ok(()),
    }
}

#[cycle(steps)]
fn push_exprs(alloc: Global, trees: &[Expr], out: &mut Items<Step>) -> Result<(), NoMemory>
    ensures { OnOk result (out.new ≡ out.old ++ spec.each (map spec.read_of trees.now)) }
{
    for tree in trees {
        push_expr(alloc, tree, out)?;
    }
    Ok(())
}

#[cycle(steps)]
fn push_fields(alloc: Global, fields: &[Set], out: &mut Items<Step>) -> Result<(), NoMemory>
    ensures { OnOk result (out.new ≡ out.old ++ spec.fields_steps (map spec.field_of fields.now)) }
{
    push_labels(alloc, fields, out)?;
    for field in fields {
        push_expr(alloc, &field.value, out)?;
    }
    Ok(())
}

/// A lambda. Another expression has no steps here.
#[cycle(steps)]
fn push_lambda(alloc: Global, tree: &Expr, out: &mut Items<Step>) -> Result<(), NoMemory>
    ensures { OnOk result (out.new ≡ out.old ++ spec.lambda_of tree.now) }
{
    let Expr::Lambda { patterns, body, .. } = tree else {
        return Ok(());
    };
    out.push(Step::Opens)?;
    push_patterns(alloc, patterns.as_slice(), out)?;
    push_expr(alloc, body.get(), out)?;
    out.push(Step::Closes)?;
    Ok(())
}

/// The branches of a `case`. Another expression has none.
#[cycle(steps)]
fn push_branches(alloc: Global, tree: &Expr, out: &mut Items<Step>) -> Result<(), NoMemory>
    ensures { OnOk result (out.new ≡ out.old ++ spec.branches_of tree.now) }
{
    let Expr::Case { branches, .. } = tree else {
        return Ok(());
    };
    let branches = branches.as_slice();
    for (pattern, chosen) in branches {
        out.push(Step::Opens)?;
        push_pattern(alloc, pattern, out)?;
        push_expr(alloc, chosen, out)?;
        out.push(Step::Closes)?;
    }
    Ok(())
}

/// The branches of an `if` of several. Another expression has none.
#[cycle(steps)]
fn push_guards(alloc: Global, tree: &Expr, out: &mut Items<Step>) -> Result<(), NoMemory>
    ensures { OnOk result (out.new ≡ out.old ++ spec.guards_of tree.now) }
{
    let Expr::Guards { branches, .. } = tree else {
        return Ok(());
    };
    let branches = branches.as_slice();
    for (condition, chosen) in branches {
        push_expr(alloc, condition, out)?;
        push_expr(alloc, chosen, out)?;
    }
    Ok(())
}

/// A `let`. Another expression has no block.
#[cycle(steps)]
fn push_let(alloc: Global, tree: &Expr, out: &mut Items<Step>) -> Result<(), NoMemory>
    ensures { OnOk result (out.new ≡ out.old ++ spec.block_of tree.now) }
{
    let Expr::Let {
        at,
        definitions,
        body,
    } = tree
    else {
        return Ok(());
    };
    out.push(Step::Opens)?;
    push_block(alloc, *at, definitions.as_slice(), body.get(), out)?;
    push_declarations(alloc, definitions.as_slice(), out)?;
    push_expr(alloc, body.get(), out)?;
    out.push(Step::Closes)?;
    Ok(())
}

#[cycle(steps)]
fn push_declarations(
    alloc: Global,
    trees: &[Declaration],
    out: &mut Items<Step>,
) -> Result<(), NoMemory>
    ensures { OnOk result (out.new ≡ out.old
        ++ flat_map (λ part. part.steps) (map spec.part_of trees.now)) }
{
    for tree in trees {
        push_declaration(alloc, tree, out)?;
    }
    Ok(())
}

/// Appends what happens to names in a declaration.
#[cycle(steps)]
pub fn push_declaration(
    alloc: Global,
    tree: &Declaration,
    out: &mut Items<Step>,
) -> Result<(), NoMemory>
    ensures { OnOk result (out.new ≡ out.old ++ (spec.part_of tree.now).steps) }
{
    match tree {
        Declaration::Definition { patterns, body, .. } => {
            out.push(Step::Opens)?;
            push_patterns(alloc, patterns.as_slice(), out)?;
            push_expr(alloc, body, out)?;
            out.push(Step::Closes)?;
            Ok(())
        }
        Declaration::PatternDefinition { pattern, body, .. } => {
            push_made(alloc, pattern, out)?;
            push_expr(alloc, body, out)
        }
        Declaration::PortDefinition { body, .. } => push_expr(alloc, body, out),
        _ => Ok(()),
    }
}
