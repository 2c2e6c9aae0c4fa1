//! What an alias stands for where it has certain arguments.
ghost use Rattle.std.specs.Prelude.{◌≡◌, ◌++◌, OnOk, IfOk, option_copied};
ghost use Rattle.elm_base.specs.declared.tree.TypeTree.TheVariants as t;
ghost use Rattle.alias_expansion.specs.Parts as parts;
ghost use Rattle.alias_expansion.specs.Instances as spec;

use crate::parts::{arrow, boxed, given, over, push_those, push_typed};
use crate::room::{Room, take_all};
use elm_base::{At, Name, NoMemory, Spot, TypeTree};
use let_annotations::copy_type;
use sqlite_items::{Boxed, Items};
use std::alloc::Global;

/// The parameters of an alias, and an argument for each.
#[derive(Clone, Copy)]
pub struct Arguments<'a> {
    pub parameters: &'a [Name],
    pub given: &'a [Option<TypeTree>],
}

fn argument_for<'a>(
    parameters: &[Name],
    arguments: &'a [Option<TypeTree>],
    name: &[u8],
) -> Option<&'a TypeTree>
    ensures { option_copied result ≡ spec.argument_for parameters.now arguments.now name.now }
{
    let mut left = parameters;
    let mut rest = arguments;
    while let [parameter, more @ ..] = left {
        match rest {
            [] => return None,
            [argument, others @ ..] => {
                if parameter.bytes() == name {
                    return argument.as_ref();
                }
                left = more;
                rest = others;
            }
        }
    }
    None
}

fn copied_argument(
    alloc: Global,
    arguments: &Arguments<'_>,
    name: &[u8],
    room: &mut Room,
) -> Result<Option<TypeTree>, NoMemory>
    ensures { IfOk result (λ found. found
        ≡ spec.argument_for arguments.now.parameters.now arguments.now.given.now name.now) }
{
    match argument_for(arguments.parameters, arguments.given, name) {
        None => Ok(None),
        Some(tree) => {
            take_all(tree, room)?;
            let copied = copy_type(alloc, tree)?;
            Ok(Some(copied))
        }
    }
}

/// Fields of which all have their types, or not, over the argument for the parameter before the bar, where there is one.
fn over_argument(
    alloc: Global,
    arguments: &Arguments<'_>,
    at: At,
    before: &Option<Spot>,
    whole: bool,
    fields: Items<(Spot, TypeTree)>,
    room: &mut Room,
) -> Result<Option<TypeTree>, NoMemory>
    ensures { IfOk result (λ found. found ≡ spec.over_fields
        arguments.now.parameters.now arguments.now.given.now at before.now whole fields) }
{
    match before {
        None => Ok(given(
            whole,
            TypeTree::Fields {
                at,
                before: None,
                fields,
            },
        )),
        Some(spot) => {
            if !whole {
                return Ok(None);
            }
            let under = copied_argument(alloc, arguments, spot.name.bytes(), room)?;
            over(at, under, fields)
        }
    }
}

/// The type with an argument for each parameter.
#[cycle(instances)]
pub fn instance_of(
    alloc: Global,
    tree: &TypeTree,
    arguments: &Arguments<'_>,
    room: &mut Room,
) -> Result<Option<TypeTree>, NoMemory>
    ensures { IfOk result (λ found. found
        ≡ spec.instance_of arguments.now.parameters.now arguments.now.given.now tree.now) }
{
    match tree {
        TypeTree::Variable { name, .. } => copied_argument(alloc, arguments, name.bytes(), room),
        TypeTree::Named {
            at,
            name,
            arguments: written,
        } => {
            let mut found = Items::new(alloc);
            let whole = push_instances(alloc, written.as_slice(), arguments, room, &mut found)?;
            let name = name.copy(alloc)?;
            Ok(given(
                whole,
                TypeTree::Named {
                    at: *at,
                    name,
                    arguments: found,
                },
            ))
        }
        TypeTree::Arrow { at, from, to } => {
            let from = boxed_instance(alloc, from, arguments, room)?;
            let to = boxed_instance(alloc, to, arguments, room)?;
            Ok(arrow(*at, from, to))
        }
        TypeTree::Unit { at } => Ok(Some(TypeTree::Unit { at: *at })),
        TypeTree::Tuple { at, parts } => {
            let mut found = Items::new(alloc);
            let whole = push_instances(alloc, parts.as_slice(), arguments, room, &mut found)?;
            Ok(given(
                whole,
                TypeTree::Tuple {
                    at: *at,
                    parts: found,
                },
            ))
        }
        TypeTree::Brackets { inner, .. } => instance_of(alloc, inner.get(), arguments, room),
        TypeTree::Fields { at, before, fields } => {
            let mut found = Items::new(alloc);
            let whole = push_fields(alloc, fields.as_slice(), arguments, room, &mut found)?;
            over_argument(alloc, arguments, *at, before, whole, found, room)
        }
    }
}

#[cycle(instances)]
fn boxed_instance(
    alloc: Global,
    tree: &Boxed<TypeTree>,
    arguments: &Arguments<'_>,
    room: &mut Room,
) -> Result<Option<Boxed<TypeTree>>, NoMemory>
    ensures { IfOk result (λ found. found
        ≡ spec.instance_of arguments.now.parameters.now arguments.now.given.now tree.now) }
{
    boxed(alloc, instance_of(alloc, tree.get(), arguments, room)?)
}

/// Appends those that are there, and answers whether all are.
#[cycle(instances)]
fn push_instances(
    alloc: Global,
    trees: &[TypeTree],
    arguments: &Arguments<'_>,
    room: &mut Room,
    out: &mut Items<TypeTree>,
) -> Result<bool, NoMemory>
    ensures whole { IfOk result (λ whole. whole ≡ parts.all_there (spec.instances_of
        arguments.now.parameters.now arguments.now.given.now trees.now)) }
    ensures grown { OnOk result (out.new ≡ out.old ++ parts.found_among (spec.instances_of
        arguments.now.parameters.now arguments.now.given.now trees.now)) }
{
    let mut whole = true;
    for tree in trees {
        let there = push_those(instance_of(alloc, tree, arguments, room)?, out)?;
        whole = whole && there;
    }
    Ok(whole)
}

/// Appends those fields whose types are there, and answers whether all are.
#[cycle(instances)]
fn push_fields(
    alloc: Global,
    fields: &[(Spot, TypeTree)],
    arguments: &Arguments<'_>,
    room: &mut Room,
    out: &mut Items<(Spot, TypeTree)>,
) -> Result<bool, NoMemory>
    ensures whole { IfOk result (λ whole. whole ≡ parts.all_have_types (spec.instances_of_fields
        arguments.now.parameters.now arguments.now.given.now fields.now)) }
    ensures grown { OnOk result (out.new ≡ out.old ++ parts.typed_among (spec.instances_of_fields
        arguments.now.parameters.now arguments.now.given.now fields.now)) }
{
    let mut whole = true;
    for (label, tree) in fields {
        let label = label.copy(alloc)?;
        let there = push_typed(label, instance_of(alloc, tree, arguments, room)?, out)?;
        whole = whole && there;
    }
    Ok(whole)
}
