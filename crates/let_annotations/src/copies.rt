//! Copies of written types.
ghost use Rattle.std.specs.Prelude.{◌≡◌, IfOk};

use elm_base::{NoMemory, Spot, TypeTree};
use sqlite_items::{Boxed, Items};
use std::alloc::Global;

fn copy_spot(alloc: Global, spot: &Option<Spot>) -> Result<Option<Spot>, NoMemory>
    ensures { IfOk result (λ copied. copied ≡ spot.now) }
{
    match spot {
        None => Ok(None),
        Some(spot) => {
            let copied = spot.copy(alloc)?;
            Ok(Some(copied))
        }
    }
}

#[cycle(copies)]
fn copies_of(alloc: Global, trees: &[TypeTree]) -> Result<Items<TypeTree>, NoMemory>
    ensures { IfOk result (λ copied. copied ≡ trees.now) }
{
    let mut copied = Items::new(alloc);
    for tree in trees {
        copied.push(copy_type(alloc, tree)?)?;
    }
    Ok(copied)
}

#[cycle(copies)]
fn copy_in_box(alloc: Global, tree: &Boxed<TypeTree>) -> Result<Boxed<TypeTree>, NoMemory>
    ensures { IfOk result (λ copied. copied ≡ tree.now) }
{
    let copied = copy_type(alloc, tree.get())?;
    Ok(Boxed::new(alloc, copied)?)
}

#[cycle(copies)]
fn copies_of_fields(
    alloc: Global,
    fields: &[(Spot, TypeTree)],
) -> Result<Items<(Spot, TypeTree)>, NoMemory>
    ensures { IfOk result (λ copied. copied ≡ fields.now) }
{
    let mut copied = Items::new(alloc);
    for (label, tree) in fields {
        let label = label.copy(alloc)?;
        copied.push((label, copy_type(alloc, tree)?))?;
    }
    Ok(copied)
}

/// An equal type of its own.
#[cycle(copies)]
pub fn copy_type(alloc: Global, tree: &TypeTree) -> Result<TypeTree, NoMemory>
    ensures { IfOk result (λ copied. copied ≡ tree.now) }
{
    match tree {
        TypeTree::Unit { at } => Ok(TypeTree::Unit { at: *at }),
        TypeTree::Variable { at, name } => {
            let name = name.copy(alloc)?;
            Ok(TypeTree::Variable { at: *at, name })
        }
        TypeTree::Named {
            at,
            name,
            arguments,
        } => {
            let name = name.copy(alloc)?;
            let arguments = copies_of(alloc, arguments.as_slice())?;
            Ok(TypeTree::Named {
                at: *at,
                name,
                arguments,
            })
        }
        TypeTree::Arrow { at, from, to } => {
            let from = copy_in_box(alloc, from)?;
            let to = copy_in_box(alloc, to)?;
            Ok(TypeTree::Arrow { at: *at, from, to })
        }
        TypeTree::Tuple { at, parts } => {
            let parts = copies_of(alloc, parts.as_slice())?;
            Ok(TypeTree::Tuple { at: *at, parts })
        }
        TypeTree::Brackets { at, inner } => {
            let inner = copy_in_box(alloc, inner)?;
            Ok(TypeTree::Brackets { at: *at, inner })
        }
        TypeTree::Fields { at, before, fields } => {
            let before = copy_spot(alloc, before)?;
            let fields = copies_of_fields(alloc, fields.as_slice())?;
            Ok(TypeTree::Fields {
                at: *at,
                before,
                fields,
            })
        }
    }
}
