//! The places of expressions and declarations.
ghost use Rattle.std.specs.Prelude.{◌≡◌, ◌++◌, OnOk, map};
ghost use Rattle.case_places.specs.Places as spec;

use crate::parameters::{push_case, push_parameter, push_parameters};
use crate::place::Place;
use elm_base::{Declaration, Expr, Module, NoMemory, Set};
use sqlite_items::Items;
use std::alloc::Global;

/// Appends the places of an expression.
#[cycle(places)]
fn push_expr(alloc: Global, tree: &Expr, out: &mut Items<Place>) -> Result<(), NoMemory>
    ensures { OnOk result (out.new ≡ out.old ++ spec.places_of tree.now) }
{
    match tree {
        Expr::Negate { inner, .. } => push_expr(alloc, inner.get(), out),
        Expr::Brackets { inner, .. } => push_expr(alloc, inner.get(), out),
        Expr::Access { from, .. } => push_expr(alloc, from.get(), out),
        Expr::Chain { operands, .. } => push_exprs(alloc, operands.as_slice(), out),
        Expr::Tuple { parts, .. } => push_exprs(alloc, parts.as_slice(), out),
        Expr::List { parts, .. } => push_exprs(alloc, parts.as_slice(), out),
        Expr::Fields { fields, .. } => push_fields(alloc, fields.as_slice(), out),
        Expr::Guards { .. } => push_guards(alloc, tree, out),
        Expr::Lambda { .. } => push_joined(alloc, tree, out),
        Expr::Let { .. } => push_joined(alloc, tree, out),
        Expr::Binary { .. } => push_joined(alloc, tree, out),
        Expr::Call { .. } => push_joined(alloc, tree, out),
        Expr::Range { .. } => push_joined(alloc, tree, out),
        Expr::If { .. } => push_joined(alloc, tree, out),
        Expr::Extend { .. } => push_joined(alloc, tree, out),
        Expr::Update { .. } => push_joined(alloc, tree, out),
        Expr::Remove { .. } => push_joined(alloc, tree, out),
        Expr::Case { .. } => push_joined(alloc, tree, out),
        _ => Ok(()),
    }
}

/// An expression with parts one behind the other. Another form has none here.
#[cycle(places)]
fn push_joined(alloc: Global, tree: &Expr, out: &mut Items<Place>) -> Result<(), NoMemory>
    ensures { OnOk result (out.new ≡ out.old ++ spec.joined_of tree.now) }
{
    match tree {
        Expr::Binary { left, right, .. } => {
            push_expr(alloc, left.get(), out)?;
            push_expr(alloc, right.get(), out)
        }
        Expr::Call {
            function,
            arguments,
            ..
        } => {
            push_expr(alloc, function.get(), out)?;
            push_exprs(alloc, arguments.as_slice(), out)
        }
        Expr::Range { low, high, .. } => {
            push_expr(alloc, low.get(), out)?;
            push_expr(alloc, high.get(), out)
        }
        Expr::If {
            condition,
            yes,
            no,
            ..
        } => {
            push_expr(alloc, condition.get(), out)?;
            push_expr(alloc, yes.get(), out)?;
            push_expr(alloc, no.get(), out)
        }
        Expr::Extend { from, fields, .. } => {
            push_expr(alloc, from.get(), out)?;
            push_fields(alloc, fields.as_slice(), out)
        }
        Expr::Update { from, fields, .. } => {
            push_expr(alloc, from.get(), out)?;
            push_fields(alloc, fields.as_slice(), out)
        }
        Expr::Remove { from, fields, .. } => {
            push_expr(alloc, from.get(), out)?;
            push_fields(alloc, fields.as_slice(), out)
        }
        Expr::Lambda { patterns, body, .. } => {
            push_parameters(alloc, patterns.as_slice(), out)?;
            push_expr(alloc, body.get(), out)
        }
        Expr::Let {
            definitions,
            body,
            ..
        } => {
            push_declarations(alloc, definitions.as_slice(), out)?;
            push_expr(alloc, body.get(), out)
        }
        Expr::Case {
            at,
            scrutinee,
            branches,
        } => {
            push_case(alloc, *at, branches.as_slice(), out)?;
            push_expr(alloc, scrutinee.get(), out)?;
            push_branches(alloc, tree, out)
        }
        _ => Ok(()),
    }
}

#[cycle(places)]
fn push_exprs(alloc: Global, trees: &[Expr], out: &mut Items<Place>) -> Result<(), NoMemory>
    ensures { OnOk result (out.new ≡ out.old ++ spec.joined (map spec.places_of trees.now)) }
{
    for tree in trees {
        push_expr(alloc, tree, out)?;
    }
    Ok(())
}

#[cycle(places)]
fn push_fields(alloc: Global, fields: &[Set], out: &mut Items<Place>) -> Result<(), NoMemory>
    ensures { OnOk result (out.new ≡ out.old ++ spec.joined (map spec.places_of_set fields.now)) }
{
    for field in fields {
        push_expr(alloc, &field.value, out)?;
    }
    Ok(())
}

/// The branches of a `case`. Another expression has none.
#[cycle(places)]
fn push_branches(alloc: Global, tree: &Expr, out: &mut Items<Place>) -> Result<(), NoMemory>
    ensures { OnOk result (out.new ≡ out.old ++ spec.branches_of tree.now) }
{
    let Expr::Case { branches, .. } = tree else {
        return Ok(());
    };
    let branches = branches.as_slice();
    for (_, chosen) in branches {
        push_expr(alloc, chosen, out)?;
    }
    Ok(())
}

/// The branches of an `if` of several. Another expression has none.
#[cycle(places)]
fn push_guards(alloc: Global, tree: &Expr, out: &mut Items<Place>) -> Result<(), NoMemory>
    ensures { OnOk result (out.new ≡ out.old ++ spec.guards_of tree.now) }
{
    let Expr::Guards { branches, .. } = tree else {
        return Ok(());
    };
    let branches = branches.as_slice();
    for (condition, chosen) in branches {
        push_expr(alloc, condition, out)?;
        push_expr(alloc, chosen, out)?;
    }
    Ok(())
}

#[cycle(places)]
fn push_declarations(
    alloc: Global,
    trees: &[Declaration],
    out: &mut Items<Place>,
) -> Result<(), NoMemory>
    ensures { OnOk result (out.new ≡ out.old ++ spec.joined (map spec.places_of_declaration trees.now)) }
{
    for tree in trees {
        push_declaration(alloc, tree, out)?;
    }
    Ok(())
}

#[cycle(places)]
fn push_declaration(
    alloc: Global,
    tree: &Declaration,
    out: &mut Items<Place>,
) -> Result<(), NoMemory>
    ensures { OnOk result (out.new ≡ out.old ++ spec.places_of_declaration tree.now) }
{
    match tree {
        Declaration::Definition { patterns, body, .. } => {
            push_parameters(alloc, patterns.as_slice(), out)?;
            push_expr(alloc, body, out)
        }
        Declaration::PatternDefinition { pattern, body, .. } => {
            push_parameter(alloc, pattern, out)?;
            push_expr(alloc, body, out)
        }
        Declaration::PortDefinition { body, .. } => push_expr(alloc, body, out),
        _ => Ok(()),
    }
}

/// Appends the places of a module at which a case may be missing, from left to right.
pub fn push_places(alloc: Global, module: &Module, out: &mut Items<Place>) -> Result<(), NoMemory>
    ensures { OnOk result (out.new ≡ out.old ++ spec.places_of_module «module».now) }
{
    push_declarations(alloc, module.declarations.as_slice(), out)
}
