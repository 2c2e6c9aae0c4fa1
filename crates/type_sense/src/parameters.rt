//! The text of an alias, whose variables are parameters.
ghost use Rattle.std.specs.Prelude.{◌≡◌, ◌++◌, OnOk, IfOk};
ghost use Rattle.type_sense.specs.Parameters as spec;

use crate::judging::begins;
use elm_base::{Name, NoMemory, Spot, TypeTree};
use sqlite_items::{Boxed, Items};
use std::alloc::Global;

/// Another name for a parameter, one that says nothing of what it stands for.
fn renamed(alloc: Global, name: &Name) -> Result<Name, NoMemory>
    ensures { IfOk result (λ made. made ≡ spec.renamed name.now) }
{
    if begins(b"number", name.bytes()) {
        let mut bytes = Vec::from_slice(alloc, b" ")?;
        bytes.extend_from_slice(name.bytes())?;
        return Ok(Name::from_vec(bytes));
    }
    name.copy(alloc)
}

fn renamed_before(alloc: Global, before: &Option<Spot>) -> Result<Option<Spot>, NoMemory>
    ensures { IfOk result (λ made. made ≡ spec.renamed_before before.now) }
{
    match before {
        None => Ok(None),
        Some(spot) => {
            let name = renamed(alloc, &spot.name)?;
            Ok(Some(Spot { at: spot.at, name }))
        }
    }
}

/// The type with its parameters renamed.
#[cycle(parameters)]
pub fn with_parameters(alloc: Global, tree: &TypeTree) -> Result<TypeTree, NoMemory>
    ensures { IfOk result (λ made. made ≡ spec.with_parameters tree.now) }
{
    match tree {
        TypeTree::Unit { at } => Ok(TypeTree::Unit { at: *at }),
        TypeTree::Variable { at, name } => {
            let name = renamed(alloc, name)?;
            Ok(TypeTree::Variable { at: *at, name })
        }
        TypeTree::Named {
            at,
            name,
            arguments,
        } => {
            let name = name.copy(alloc)?;
            let arguments = all_with_parameters(alloc, arguments.as_slice())?;
            Ok(TypeTree::Named {
                at: *at,
                name,
                arguments,
            })
        }
        TypeTree::Arrow { at, from, to } => {
            let from = in_box(alloc, from)?;
            let to = in_box(alloc, to)?;
            Ok(TypeTree::Arrow { at: *at, from, to })
        }
        TypeTree::Tuple { at, parts } => {
            let parts = all_with_parameters(alloc, parts.as_slice())?;
            Ok(TypeTree::Tuple { at: *at, parts })
        }
        TypeTree::Brackets { at, inner } => {
            let inner = in_box(alloc, inner)?;
            Ok(TypeTree::Brackets { at: *at, inner })
        }
        TypeTree::Fields { at, before, fields } => {
            let before = renamed_before(alloc, before)?;
            let fields = fields_with_parameters(alloc, fields.as_slice())?;
            Ok(TypeTree::Fields {
                at: *at,
                before,
                fields,
            })
        }
    }
}

#[cycle(parameters)]
fn in_box(alloc: Global, tree: &Boxed<TypeTree>) -> Result<Boxed<TypeTree>, NoMemory>
    ensures { IfOk result (λ made. made ≡ spec.with_parameters tree.now) }
{
    let made = with_parameters(alloc, tree.get())?;
    Ok(Boxed::new(alloc, made)?)
}

#[cycle(parameters)]
fn all_with_parameters(alloc: Global, trees: &[TypeTree]) -> Result<Items<TypeTree>, NoMemory>
    ensures { IfOk result (λ made. made ≡ spec.all_with_parameters trees.now) }
{
    let mut made = Items::new(alloc);
    for tree in trees {
        made.push(with_parameters(alloc, tree)?)?;
    }
    Ok(made)
}

#[cycle(parameters)]
fn fields_with_parameters(
    alloc: Global,
    fields: &[(Spot, TypeTree)],
) -> Result<Items<(Spot, TypeTree)>, NoMemory>
    ensures { IfOk result (λ made. made ≡ spec.fields_with_parameters fields.now) }
{
    let mut made = Items::new(alloc);
    for (label, tree) in fields {
        let label = label.copy(alloc)?;
        made.push((label, with_parameters(alloc, tree)?))?;
    }
    Ok(made)
}
