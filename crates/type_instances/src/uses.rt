//! Where the variables of a written type stand.
ghost use Rattle.std.specs.Prelude.{◌≡◌, ◌++◌, ◌∷◌, [], OnOk};
ghost use Rattle.type_sense.specs.WrittenOf.{written_of};
ghost use Rattle.type_instances.specs.Uses.{use_of, uses};
ghost use Rattle.type_instances.specs.Listing.{before_uses, uses_in_trees, uses_of_fields};

use elm_base::{Name, NoMemory, Spot, TypeTree};
use sqlite_items::Items;
use std::alloc::Global;

/// A place of a variable, before a bar or not.
#[derive(Drop)]
pub struct Use {
    pub name: Name,
    pub before: bool,
}

fn push_use(alloc: Global, name: &Name, before: bool, out: &mut Items<Use>) -> Result<(), NoMemory>
    ensures { OnOk result (out.new ≡ out.old ++ use_of before name.now ∷ []) }
{
    let name = name.copy(alloc)?;
    out.push(Use { name, before })?;
    Ok(())
}

fn push_before(alloc: Global, before: &Option<Spot>, out: &mut Items<Use>) -> Result<(), NoMemory>
    ensures { OnOk result (out.new ≡ out.old ++ before_uses before.now) }
{
    match before {
        None => Ok(()),
        Some(spot) => push_use(alloc, &spot.name, true, out),
    }
}

/// Adds each place of a variable in the type behind the others, in order.
#[cycle(uses)]
pub fn push_uses(alloc: Global, tree: &TypeTree, out: &mut Items<Use>) -> Result<(), NoMemory>
    ensures { OnOk result (out.new ≡ out.old ++ uses (written_of tree.now)) }
{
    match tree {
        TypeTree::Variable { name, .. } => push_use(alloc, name, false, out),
        TypeTree::Named { arguments, .. } => push_uses_in(alloc, arguments.as_slice(), out),
        TypeTree::Arrow { from, to, .. } => {
            push_uses(alloc, from.get(), out)?;
            push_uses(alloc, to.get(), out)
        }
        TypeTree::Unit { .. } => Ok(()),
        TypeTree::Tuple { parts, .. } => push_uses_in(alloc, parts.as_slice(), out),
        TypeTree::Brackets { inner, .. } => push_uses(alloc, inner.get(), out),
        TypeTree::Fields { before, fields, .. } => {
            push_before(alloc, before, out)?;
            push_uses_of(alloc, fields.as_slice(), out)
        }
    }
}

#[cycle(uses)]
fn push_uses_in(alloc: Global, trees: &[TypeTree], out: &mut Items<Use>) -> Result<(), NoMemory>
    ensures { OnOk result (out.new ≡ out.old ++ uses_in_trees trees.now) }
{
    for tree in trees {
        push_uses(alloc, tree, out)?;
    }
    Ok(())
}

#[cycle(uses)]
fn push_uses_of(
    alloc: Global,
    fields: &[(Spot, TypeTree)],
    out: &mut Items<Use>,
) -> Result<(), NoMemory>
    ensures { OnOk result (out.new ≡ out.old ++ uses_of_fields fields.now) }
{
    for (_, tree) in fields {
        push_uses(alloc, tree, out)?;
    }
    Ok(())
}
