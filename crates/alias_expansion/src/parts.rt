//! Types whose parts may be missing.
ghost use Rattle.std.specs.Prelude.{◌≡◌, ◌++◌, OnOk, IfOk, Option, Some, None};
ghost use Rattle.elm_base.specs.declared.tree.TypeTree.TheVariants as t;
ghost use Rattle.alias_expansion.specs.Parts as spec;

use elm_base::{At, NoMemory, Spot, TypeTree};
use sqlite_items::{Boxed, Items};
use std::alloc::Global;

pub fn given(whole: bool, tree: TypeTree) -> Option<TypeTree>
    ensures { result ≡ spec.given whole tree }
{
    if whole { Some(tree) } else { None }
}

/// An equal one of what stands before a bar.
pub fn copy_before(alloc: Global, before: &Option<Spot>) -> Result<Option<Spot>, NoMemory>
    ensures { IfOk result (λ copied. copied ≡ before.now) }
{
    match before {
        None => Ok(None),
        Some(spot) => {
            let copied = spot.copy(alloc)?;
            Ok(Some(copied))
        }
    }
}

/// Appends the type, if it is there, and answers whether it is.
pub fn push_those(tree: Option<TypeTree>, out: &mut Items<TypeTree>) -> Result<bool, NoMemory>
    ensures there { IfOk result (λ there. there ≡ spec.is_there tree) }
    ensures grown { OnOk result (out.new ≡ out.old ++ spec.those tree) }
{
    match tree {
        None => Ok(false),
        Some(tree) => {
            out.push(tree)?;
            Ok(true)
        }
    }
}

/// Appends the field, if its type is there, and answers whether it is.
pub fn push_typed(
    label: Spot,
    tree: Option<TypeTree>,
    out: &mut Items<(Spot, TypeTree)>,
) -> Result<bool, NoMemory>
    ensures there { IfOk result (λ there. there ≡ spec.is_there tree) }
    ensures grown { OnOk result (out.new ≡ out.old ++ spec.labelled label tree) }
{
    match tree {
        None => Ok(false),
        Some(tree) => {
            out.push((label, tree))?;
            Ok(true)
        }
    }
}

/// The type in a box, if it is there.
pub fn boxed(alloc: Global, tree: Option<TypeTree>) -> Result<Option<Boxed<TypeTree>>, NoMemory>
    ensures { IfOk result (λ found. found ≡ tree) }
{
    match tree {
        None => Ok(None),
        Some(tree) => Ok(Some(Boxed::new(alloc, tree)?)),
    }
}

pub fn arrow(at: At, from: Option<Boxed<TypeTree>>, to: Option<Boxed<TypeTree>>) -> Option<TypeTree>
    ensures { result ≡ spec.arrow at from to }
{
    match (from, to) {
        (Some(from), Some(to)) => Some(TypeTree::Arrow { at, from, to }),
        _ => None,
    }
}

/// Fields over what stands before the bar: over a variable, or over a record, whose own fields come behind them.
pub fn over(
    at: At,
    under: Option<TypeTree>,
    fields: Items<(Spot, TypeTree)>,
) -> Result<Option<TypeTree>, NoMemory>
    ensures { IfOk result (λ found. found ≡ spec.over at under fields) }
{
    match under {
        Some(TypeTree::Variable { at: place, name }) => {
            let before = Some(Spot { at: place, name });
            Ok(Some(TypeTree::Fields { at, before, fields }))
        }
        Some(
            TypeTree::Fields {
                before,
                fields: more,
                ..
            },
        ) => {
            let mut all = fields;
            all.append(more)?;
            Ok(Some(TypeTree::Fields {
                at,
                before,
                fields: all,
            }))
        }
        _ => Ok(None),
    }
}
