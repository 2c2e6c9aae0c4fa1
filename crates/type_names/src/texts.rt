//! What is wrong at places in the texts of written types.
ghost use Rattle.std.specs.Prelude.{◌≡◌, ◌∷◌, [], ◌++◌, OnOk, map};
ghost use Rattle.std.specs.List.{flat_map};
ghost use Rattle.module_tops.specs.Tops.{spot_of};
ghost use Rattle.type_names.specs.Answers.{places_of};
ghost use Rattle.type_names.specs.Texts as spec;

use crate::answer::{TypeAnswer, type_at};
use crate::scope::TypeScope;
use elm_base::{At, Constructor, Declaration, Name, NoMemory, Spot, TypeTree};
use module_tops::is_named;
use sqlite_items::Items;
use std::alloc::Global;

/// Which variables may stand in a written type.
#[derive(Clone, Copy)]
pub enum Variables {
    /// All, as in an annotation of a module's top level.
    Any,
    /// The parameters of the union or alias alone.
    Parameters,
    /// Those that stand for Int alone, as in an annotation of a `let`.
    Numbers,
}

fn allows(variables: Variables, parameters: &[Spot], name: &[u8]) -> bool
    ensures { result ≡ spec.allows variables parameters.now name.now }
{
    match variables {
        Variables::Any => true,
        Variables::Parameters => is_named(parameters, name),
        Variables::Numbers => name.starts_with(b"number"),
    }
}

fn push_spot(alloc: Global, at: At, name: &Name, out: &mut Items<Spot>) -> Result<(), NoMemory>
    ensures { OnOk result (out.new ≡ out.old ++ spot_of at name.now ∷ []) }
{
    let name = name.copy(alloc)?;
    out.push(Spot { at, name })?;
    Ok(())
}

fn push_of_variable(
    alloc: Global,
    variables: Variables,
    parameters: &[Spot],
    at: At,
    name: &Name,
    out: &mut Items<Spot>,
) -> Result<(), NoMemory>
    ensures { OnOk result (out.new ≡ out.old
        ++ spec.flaw_of_variable variables parameters.now at name.now) }
{
    if allows(variables, parameters, name.bytes()) {
        return Ok(());
    }
    push_spot(alloc, at, name, out)
}

fn push_of_before(
    alloc: Global,
    variables: Variables,
    parameters: &[Spot],
    before: &Option<Spot>,
    out: &mut Items<Spot>,
) -> Result<(), NoMemory>
    ensures { OnOk result (out.new ≡ out.old
        ++ spec.flaw_before variables parameters.now before.now) }
{
    match before {
        None => Ok(()),
        Some(spot) => push_of_variable(alloc, variables, parameters, spot.at, &spot.name, out),
    }
}

/// Whether the name stands for one type that takes so many arguments.
fn stands_with(answer: &TypeAnswer, count: usize) -> bool
    ensures { result ≡ spec.stands_with answer.now count }
{
    match answer {
        TypeAnswer::Stands { found } => found.takes == count,
        TypeAnswer::Unknown | TypeAnswer::Ambiguous => false,
    }
}

fn push_of_name(
    alloc: Global,
    scope: &TypeScope<'_>,
    at: At,
    name: &Name,
    count: usize,
    out: &mut Items<Spot>,
) -> Result<(), NoMemory>
    ensures { OnOk result (out.new ≡ out.old
        ++ spec.flaw_of_name (places_of scope.now) at name.now count) }
{
    let answer = type_at(alloc, scope, name.bytes())?;
    if stands_with(&answer, count) {
        return Ok(());
    }
    push_spot(alloc, at, name, out)
}

/// Appends what is wrong in a written type, from left to right: a name that stands for no one type, one with another number of
/// arguments than its type takes, a variable that may not stand there.
#[cycle(flaws)]
pub fn push_flaws(
    alloc: Global,
    scope: &TypeScope<'_>,
    variables: Variables,
    parameters: &[Spot],
    tree: &TypeTree,
    out: &mut Items<Spot>,
) -> Result<(), NoMemory>
    ensures { OnOk result (out.new ≡ out.old
        ++ spec.flaws_in (places_of scope.now) variables parameters.now tree.now) }
{
    match tree {
        TypeTree::Variable { at, name } => {
            push_of_variable(alloc, variables, parameters, *at, name, out)
        }
        TypeTree::Named {
            at,
            name,
            arguments,
        } => {
            push_of_name(alloc, scope, *at, name, arguments.len(), out)?;
            push_all_flaws(
                alloc,
                scope,
                variables,
                parameters,
                arguments.as_slice(),
                out,
            )
        }
        TypeTree::Arrow { from, to, .. } => {
            push_flaws(alloc, scope, variables, parameters, from.get(), out)?;
            push_flaws(alloc, scope, variables, parameters, to.get(), out)
        }
        TypeTree::Unit { .. } => Ok(()),
        TypeTree::Tuple { parts, .. } => {
            push_all_flaws(alloc, scope, variables, parameters, parts.as_slice(), out)
        }
        TypeTree::Brackets { inner, .. } => {
            push_flaws(alloc, scope, variables, parameters, inner.get(), out)
        }
        TypeTree::Fields { before, fields, .. } => {
            push_of_before(alloc, variables, parameters, before, out)?;
            push_of_fields(alloc, scope, variables, parameters, fields.as_slice(), out)
        }
    }
}

#[cycle(flaws)]
fn push_all_flaws(
    alloc: Global,
    scope: &TypeScope<'_>,
    variables: Variables,
    parameters: &[Spot],
    trees: &[TypeTree],
    out: &mut Items<Spot>,
) -> Result<(), NoMemory>
    ensures { OnOk result (out.new ≡ out.old
        ++ spec.flaws_in_all (places_of scope.now) variables parameters.now trees.now) }
{
    for tree in trees {
        push_flaws(alloc, scope, variables, parameters, tree, out)?;
    }
    Ok(())
}

#[cycle(flaws)]
fn push_of_fields(
    alloc: Global,
    scope: &TypeScope<'_>,
    variables: Variables,
    parameters: &[Spot],
    fields: &[(Spot, TypeTree)],
    out: &mut Items<Spot>,
) -> Result<(), NoMemory>
    ensures { OnOk result (out.new ≡ out.old
        ++ spec.flaws_in_fields (places_of scope.now) variables parameters.now fields.now) }
{
    for (_, tree) in fields {
        push_flaws(alloc, scope, variables, parameters, tree, out)?;
    }
    Ok(())
}

fn push_of_constructors(
    alloc: Global,
    scope: &TypeScope<'_>,
    parameters: &[Spot],
    constructors: &[Constructor],
    out: &mut Items<Spot>,
) -> Result<(), NoMemory>
    ensures { OnOk result (out.new ≡ out.old
        ++ spec.flaws_of_constructors (places_of scope.now) parameters.now constructors.now) }
{
    for constructor in constructors {
        push_all_flaws(
            alloc,
            scope,
            Variables::Parameters,
            parameters,
            constructor.arguments.as_slice(),
            out,
        )?;
    }
    Ok(())
}

fn push_written(
    alloc: Global,
    scope: &TypeScope<'_>,
    tree: &TypeTree,
    out: &mut Items<Spot>,
) -> Result<(), NoMemory>
    ensures { OnOk result (out.new ≡ out.old ++ spec.flaws_in_any (places_of scope.now) tree.now) }
{
    push_flaws(alloc, scope, Variables::Any, &[], tree, out)
}

/// Appends what is wrong in the types that a declaration of a module writes, from left to right.
pub fn push_flaws_of(
    alloc: Global,
    scope: &TypeScope<'_>,
    declaration: &Declaration,
    out: &mut Items<Spot>,
) -> Result<(), NoMemory>
    ensures { OnOk result (out.new ≡ out.old
        ++ spec.flaws_of (places_of scope.now) declaration.now) }
{
    match declaration {
        Declaration::Union {
            parameters,
            constructors,
            ..
        } => push_of_constructors(
            alloc,
            scope,
            parameters.as_slice(),
            constructors.as_slice(),
            out,
        ),
        Declaration::Alias {
            parameters,
            written,
            ..
        } => {
            let rule = Variables::Parameters;
            push_flaws(alloc, scope, rule, parameters.as_slice(), written, out)
        }
        Declaration::Annotation { written, .. } => push_written(alloc, scope, written, out),
        Declaration::PortAnnotation { written, .. } => push_written(alloc, scope, written, out),
        Declaration::Native { written, .. } => push_written(alloc, scope, written, out),
        Declaration::Device { written, .. } => push_written(alloc, scope, written, out),
        _ => Ok(()),
    }
}
