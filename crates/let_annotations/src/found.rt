//! Annotations in blocks, found in expressions and declarations.
ghost use Rattle.std.specs.Prelude.{◌≡◌, ◌∷◌, [], ◌++◌, OnOk};
ghost use Rattle.let_annotations.specs.Annotations as spec;

use crate::annotation::LetAnnotation;
use crate::copies::copy_type;
use elm_base::{At, Declaration, Expr, Name, NoMemory, Set, TypeTree};
use sqlite_items::Items;
use std::alloc::Global;

fn push_annotation(
    alloc: Global,
    at: At,
    name: &Name,
    written: &TypeTree,
    out: &mut Items<LetAnnotation>,
) -> Result<(), NoMemory>
    ensures { OnOk result (out.new ≡ out.old ++ spec.annotation_of at name.now written.now ∷ []) }
{
    let name = name.copy(alloc)?;
    let written = copy_type(alloc, written)?;
    out.push(LetAnnotation { at, name, written })?;
    Ok(())
}

#[cycle(found)]
fn push_of_expr(alloc: Global, tree: &Expr, out: &mut Items<LetAnnotation>) -> Result<(), NoMemory>
    ensures { OnOk result (out.new ≡ out.old ++ spec.found_in tree.now) }
{
    match tree {
        Expr::Negate { inner, .. } => push_of_expr(alloc, inner.get(), out),
        Expr::Brackets { inner, .. } => push_of_expr(alloc, inner.get(), out),
        Expr::Access { from, .. } => push_of_expr(alloc, from.get(), out),
        Expr::Lambda { body, .. } => push_of_expr(alloc, body.get(), out),
        Expr::Chain { operands, .. } => push_of_all(alloc, operands.as_slice(), out),
        Expr::Tuple { parts, .. } => push_of_all(alloc, parts.as_slice(), out),
        Expr::List { parts, .. } => push_of_all(alloc, parts.as_slice(), out),
        Expr::Fields { fields, .. } => push_of_fields(alloc, fields.as_slice(), out),
        Expr::Guards { .. } => push_of_guards(alloc, tree, out),
        Expr::Case { .. } => push_of_case(alloc, tree, out),
        Expr::Let { .. } => push_of_let(alloc, tree, out),
        Expr::Binary { .. } => push_joined(alloc, tree, out),
        Expr::Call { .. } => push_joined(alloc, tree, out),
        Expr::Range { .. } => push_joined(alloc, tree, out),
        Expr::If { .. } => push_joined(alloc, tree, out),
        Expr::Extend { .. } => push_joined(alloc, tree, out),
        Expr::Update { .. } => push_joined(alloc, tree, out),
        Expr::Remove { .. } => push_joined(alloc, tree, out),
        _ => Ok(()),
    }
}

/// An expression with parts one behind the other. Another form has none here.
#[cycle(found)]
fn push_joined(alloc: Global, tree: &Expr, out: &mut Items<LetAnnotation>) -> Result<(), NoMemory>
    ensures { OnOk result (out.new ≡ out.old ++ spec.joined_of tree.now) }
{
    match tree {
        Expr::Binary { left, right, .. } => {
            push_of_expr(alloc, left.get(), out)?;
            push_of_expr(alloc, right.get(), out)
        }
        Expr::Call {
            function,
            arguments,
            ..
        } => {
            push_of_expr(alloc, function.get(), out)?;
            push_of_all(alloc, arguments.as_slice(), out)
        }
        Expr::Range { low, high, .. } => {
            push_of_expr(alloc, low.get(), out)?;
            push_of_expr(alloc, high.get(), out)
        }
        Expr::If {
            condition,
            yes,
            no,
            ..
        } => {
            push_of_expr(alloc, condition.get(), out)?;
            push_of_expr(alloc, yes.get(), out)?;
            push_of_expr(alloc, no.get(), out)
        }
        Expr::Extend { from, fields, .. } => {
            push_of_expr(alloc, from.get(), out)?;
            push_of_fields(alloc, fields.as_slice(), out)
        }
        Expr::Update { from, fields, .. } => {
            push_of_expr(alloc, from.get(), out)?;
            push_of_fields(alloc, fields.as_slice(), out)
        }
        Expr::Remove { from, fields, .. } => {
            push_of_expr(alloc, from.get(), out)?;
            push_of_fields(alloc, fields.as_slice(), out)
        }
        _ => Ok(()),
    }
}

#[cycle(found)]
fn push_of_all(
    alloc: Global,
    trees: &[Expr],
    out: &mut Items<LetAnnotation>,
) -> Result<(), NoMemory>
    ensures { OnOk result (out.new ≡ out.old ++ spec.found_in_all trees.now) }
{
    for tree in trees {
        push_of_expr(alloc, tree, out)?;
    }
    Ok(())
}

#[cycle(found)]
fn push_of_fields(
    alloc: Global,
    fields: &[Set],
    out: &mut Items<LetAnnotation>,
) -> Result<(), NoMemory>
    ensures { OnOk result (out.new ≡ out.old ++ spec.found_in_fields fields.now) }
{
    for field in fields {
        push_of_expr(alloc, &field.value, out)?;
    }
    Ok(())
}

/// The branches of an `if` of several. Another expression has none.
#[cycle(found)]
fn push_of_guards(
    alloc: Global,
    tree: &Expr,
    out: &mut Items<LetAnnotation>,
) -> Result<(), NoMemory>
    ensures { OnOk result (out.new ≡ out.old ++ spec.guards_of tree.now) }
{
    let Expr::Guards { branches, .. } = tree else {
        return Ok(());
    };
    let branches = branches.as_slice();
    for (condition, chosen) in branches {
        push_of_expr(alloc, condition, out)?;
        push_of_expr(alloc, chosen, out)?;
    }
    Ok(())
}

/// A `case`. Another expression has nothing here.
#[cycle(found)]
fn push_of_case(alloc: Global, tree: &Expr, out: &mut Items<LetAnnotation>) -> Result<(), NoMemory>
    ensures { OnOk result (out.new ≡ out.old ++ spec.case_of tree.now) }
{
    match tree {
        Expr::Case { scrutinee, .. } => {
            push_of_expr(alloc, scrutinee.get(), out)?;
            push_of_branches(alloc, tree, out)
        }
        _ => Ok(()),
    }
}

/// The branches of a `case`. Another expression has none.
#[cycle(found)]
fn push_of_branches(
    alloc: Global,
    tree: &Expr,
    out: &mut Items<LetAnnotation>,
) -> Result<(), NoMemory>
    ensures { OnOk result (out.new ≡ out.old ++ spec.branches_of tree.now) }
{
    let Expr::Case { branches, .. } = tree else {
        return Ok(());
    };
    let branches = branches.as_slice();
    for (_, chosen) in branches {
        push_of_expr(alloc, chosen, out)?;
    }
    Ok(())
}

/// A `let`. Another expression has no block.
#[cycle(found)]
fn push_of_let(alloc: Global, tree: &Expr, out: &mut Items<LetAnnotation>) -> Result<(), NoMemory>
    ensures { OnOk result (out.new ≡ out.old ++ spec.let_of tree.now) }
{
    let Expr::Let {
        definitions,
        body,
        ..
    } = tree
    else {
        return Ok(());
    };
    push_of_block(alloc, definitions.as_slice(), out)?;
    push_of_expr(alloc, body.get(), out)
}

#[cycle(found)]
fn push_of_block(
    alloc: Global,
    trees: &[Declaration],
    out: &mut Items<LetAnnotation>,
) -> Result<(), NoMemory>
    ensures { OnOk result (out.new ≡ out.old ++ spec.found_in_block trees.now) }
{
    for tree in trees {
        push_of_declaration(alloc, tree, out)?;
    }
    Ok(())
}

/// A declaration in a `let`.
#[cycle(found)]
fn push_of_declaration(
    alloc: Global,
    tree: &Declaration,
    out: &mut Items<LetAnnotation>,
) -> Result<(), NoMemory>
    ensures { OnOk result (out.new ≡ out.old ++ spec.all_of (spec.part_of tree.now)) }
{
    match tree {
        Declaration::Annotation { at, name, written } => {
            push_annotation(alloc, *at, name, written, out)
        }
        Declaration::Definition { body, .. } => push_of_expr(alloc, body, out),
        Declaration::PatternDefinition { body, .. } => push_of_expr(alloc, body, out),
        Declaration::PortDefinition { body, .. } => push_of_expr(alloc, body, out),
        _ => Ok(()),
    }
}

/// Appends the annotations in the blocks of `let` that stand in a declaration of a module, from left to right.
pub fn push_annotations(
    alloc: Global,
    declaration: &Declaration,
    out: &mut Items<LetAnnotation>,
) -> Result<(), NoMemory>
    ensures { OnOk result (out.new ≡ out.old ++ spec.inside declaration.now) }
{
    match declaration {
        Declaration::Definition { body, .. } => push_of_expr(alloc, body, out),
        Declaration::PatternDefinition { body, .. } => push_of_expr(alloc, body, out),
        Declaration::PortDefinition { body, .. } => push_of_expr(alloc, body, out),
        _ => Ok(()),
    }
}
