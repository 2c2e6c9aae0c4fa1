//! The binders of a definition, from left to right.
ghost use Rattle.std.specs.Prelude.{◌≡◌, OnOk, IfOk};
ghost use Rattle.plain_form.specs.Numbering.{both, use_binders, pattern_binders, binders_of, definition_binders, binders_in as wanted_in};
ghost use Rattle.core_names.specs.Tables.{naming, tables_of};
ghost use Rattle.core_names.specs.Binding as spec;

use crate::binders::Binders;
use crate::makers::label_count;
use crate::names::Names;
use crate::numbers::small;
use elm_base::{At, Declaration, Expr, NoMemory, Pattern, Set, Spot, Thing};
use std::alloc::Global;

fn push_labels(labels: &[Spot], out: &mut Binders) -> Result<(), NoMemory>
    ensures { OnOk result (spec.listed out.new ≡ both (spec.listed out.old)
        (spec.of_labels labels.now)) }
{
    for label in labels {
        out.push(label.at)?;
    }
    Ok(())
}

#[cycle(patterns)]
fn push_pattern(pattern: &Pattern, out: &mut Binders) -> Result<(), NoMemory>
    ensures { OnOk result (spec.listed out.new ≡ both (spec.listed out.old)
        (pattern_binders pattern.now)) }
{
    match pattern {
        Pattern::Variable { at, .. } => out.push(*at),
        Pattern::Made { parts, .. } => push_patterns(parts.as_slice(), out),
        Pattern::List { parts, .. } => push_patterns(parts.as_slice(), out),
        Pattern::Tuple { parts, .. } => push_patterns(parts.as_slice(), out),
        Pattern::Fields { labels, .. } => push_labels(labels.as_slice(), out),
        Pattern::Brackets { inner, .. } => push_pattern(inner.get(), out),
        Pattern::Cons { head, tail, .. } => {
            push_pattern(head.get(), out)?;
            push_pattern(tail.get(), out)
        }
        Pattern::Named { inner, name, .. } => {
            push_pattern(inner.get(), out)?;
            out.push(name.at)
        }
        _ => Ok(()),
    }
}

#[cycle(patterns)]
fn push_patterns(patterns: &[Pattern], out: &mut Binders) -> Result<(), NoMemory>
    ensures { OnOk result (spec.listed out.new ≡ both (spec.listed out.old)
        (spec.of_patterns patterns.now)) }
{
    for pattern in patterns {
        push_pattern(pattern, out)?;
    }
    Ok(())
}

/// A maker wants a binder for each label.
#[tactic(auto, unfolding(crate::specs::Tables::naming))]
fn push_use(names: &Names<'_>, at: At, out: &mut Binders) -> Result<(), NoMemory>
    ensures { OnOk result (spec.listed out.new ≡ both (spec.listed out.old)
        (use_binders (naming (tables_of names.now)) at ((naming (tables_of names.now)).thing at))) }
{
    match names.thing(at) {
        Some(Thing::Maker { module, name }) => {
            let count = label_count(names.aliases, module.bytes(), name.bytes());
            out.push_further(at, small(count)?)
        }
        _ => Ok(()),
    }
}

#[cycle(binders)]
fn push_expr(tree: &Expr, names: &Names<'_>, out: &mut Binders) -> Result<(), NoMemory>
    ensures { OnOk result (spec.listed out.new ≡ both (spec.listed out.old)
        (binders_of (naming (tables_of names.now)) tree.now)) }
{
    match tree {
        Expr::Negate { inner, .. } => push_expr(inner.get(), names, out),
        Expr::Brackets { inner, .. } => push_expr(inner.get(), names, out),
        Expr::Access { from, .. } => push_expr(from.get(), names, out),
        Expr::Chain { operands, .. } => push_all(operands.as_slice(), names, out),
        Expr::Tuple { parts, .. } => push_all(parts.as_slice(), names, out),
        Expr::List { parts, .. } => push_all(parts.as_slice(), names, out),
        Expr::Fields { fields, .. } => push_sets(fields.as_slice(), names, out),
        Expr::Guards { branches, .. } => push_guards(branches.as_slice(), names, out),
        Expr::Constructor { at, .. } => push_use(names, *at, out),
        Expr::FieldFunction { at, .. } => out.push_further(*at, 1),
        Expr::TupleMaker { at, parts } => out.push_further(*at, *parts),
        _ => push_joined(tree, names, out),
    }
}

/// Forms with parts one behind the other. Another form has none here.
#[cycle(binders)]
fn push_joined(tree: &Expr, names: &Names<'_>, out: &mut Binders) -> Result<(), NoMemory>
    ensures { OnOk result (spec.listed out.new ≡ both (spec.listed out.old)
        (spec.joined_of (naming (tables_of names.now)) tree.now)) }
{
    match tree {
        Expr::Binary { left, right, .. } => {
            push_expr(left.get(), names, out)?;
            push_expr(right.get(), names, out)
        }
        Expr::Call {
            function,
            arguments,
            ..
        } => {
            push_expr(function.get(), names, out)?;
            push_all(arguments.as_slice(), names, out)
        }
        Expr::Range { low, high, .. } => {
            push_expr(low.get(), names, out)?;
            push_expr(high.get(), names, out)
        }
        Expr::If {
            condition,
            yes,
            no,
            ..
        } => {
            push_expr(condition.get(), names, out)?;
            push_expr(yes.get(), names, out)?;
            push_expr(no.get(), names, out)
        }
        Expr::Lambda { patterns, body, .. } => {
            push_patterns(patterns.as_slice(), out)?;
            push_expr(body.get(), names, out)
        }
        Expr::Let {
            definitions,
            body,
            ..
        } => {
            push_block(definitions.as_slice(), names, out)?;
            push_expr(body.get(), names, out)
        }
        Expr::Case { scrutinee, .. } => {
            push_expr(scrutinee.get(), names, out)?;
            push_branches(tree, names, out)
        }
        _ => push_record(tree, names, out),
    }
}

/// Records made from others. Another form has none here.
#[cycle(binders)]
fn push_record(tree: &Expr, names: &Names<'_>, out: &mut Binders) -> Result<(), NoMemory>
    ensures { OnOk result (spec.listed out.new ≡ both (spec.listed out.old)
        (spec.record_of (naming (tables_of names.now)) tree.now)) }
{
    match tree {
        Expr::Extend { from, fields, .. } => {
            push_expr(from.get(), names, out)?;
            push_sets(fields.as_slice(), names, out)
        }
        Expr::Update { from, fields, .. } => {
            push_expr(from.get(), names, out)?;
            push_sets(fields.as_slice(), names, out)
        }
        Expr::Remove { from, fields, .. } => {
            push_expr(from.get(), names, out)?;
            push_sets(fields.as_slice(), names, out)
        }
        _ => Ok(()),
    }
}

#[cycle(binders)]
fn push_all(trees: &[Expr], names: &Names<'_>, out: &mut Binders) -> Result<(), NoMemory>
    ensures { OnOk result (spec.listed out.new ≡ both (spec.listed out.old)
        (spec.of_all (naming (tables_of names.now)) trees.now)) }
{
    for tree in trees {
        push_expr(tree, names, out)?;
    }
    Ok(())
}

#[cycle(binders)]
fn push_sets(sets: &[Set], names: &Names<'_>, out: &mut Binders) -> Result<(), NoMemory>
    ensures { OnOk result (spec.listed out.new ≡ both (spec.listed out.old)
        (spec.of_sets (naming (tables_of names.now)) sets.now)) }
{
    for set in sets {
        push_expr(&set.value, names, out)?;
    }
    Ok(())
}

#[cycle(binders)]
fn push_guards(
    branches: &[(Expr, Expr)],
    names: &Names<'_>,
    out: &mut Binders,
) -> Result<(), NoMemory>
    ensures { OnOk result (spec.listed out.new ≡ both (spec.listed out.old)
        (spec.of_guards (naming (tables_of names.now)) branches.now)) }
{
    for (condition, chosen) in branches {
        push_expr(condition, names, out)?;
        push_expr(chosen, names, out)?;
    }
    Ok(())
}

/// The branches of a `case`. Another expression has none.
#[cycle(binders)]
fn push_branches(tree: &Expr, names: &Names<'_>, out: &mut Binders) -> Result<(), NoMemory>
    ensures { OnOk result (spec.listed out.new ≡ both (spec.listed out.old)
        (spec.branches_of (naming (tables_of names.now)) tree.now)) }
{
    let Expr::Case { branches, .. } = tree else {
        return Ok(());
    };
    let branches = branches.as_slice();
    for (pattern, chosen) in branches {
        push_pattern(pattern, out)?;
        push_expr(chosen, names, out)?;
    }
    Ok(())
}

#[cycle(binders)]
fn push_block(
    definitions: &[Declaration],
    names: &Names<'_>,
    out: &mut Binders,
) -> Result<(), NoMemory>
    ensures { OnOk result (spec.listed out.new ≡ both (spec.listed out.old)
        (spec.of_block (naming (tables_of names.now)) definitions.now)) }
{
    for definition in definitions {
        push_definition(definition, names, out)?;
    }
    Ok(())
}

/// A definition of a `let` binds its name.
#[cycle(binders)]
fn push_definition(
    definition: &Declaration,
    names: &Names<'_>,
    out: &mut Binders,
) -> Result<(), NoMemory>
    ensures { OnOk result (spec.listed out.new ≡ both (spec.listed out.old)
        (definition_binders (naming (tables_of names.now)) definition.now)) }
{
    match definition {
        Declaration::Definition {
            at,
            patterns,
            body,
            ..
        } => {
            out.push(*at)?;
            push_patterns(patterns.as_slice(), out)?;
            push_expr(body, names, out)
        }
        Declaration::PatternDefinition { pattern, body, .. } => {
            push_pattern(pattern, out)?;
            push_expr(body, names, out)
        }
        _ => Ok(()),
    }
}

/// The binders of a top-level definition with these parameters and this body. Its own name is none.
pub fn binders_in(
    alloc: Global,
    names: &Names<'_>,
    parameters: &[Pattern],
    body: &Expr,
) -> Result<Binders, NoMemory>
    ensures { IfOk result (λ binders. spec.listed binders
        ≡ wanted_in (naming (tables_of names.now)) parameters.now body.now) }
{
    let mut binders = Binders::new(alloc);
    push_patterns(parameters, &mut binders)?;
    push_expr(body, names, &mut binders)?;
    Ok(binders)
}
