//! The names in patterns.
ghost use Rattle.std.specs.Prelude.{◌≡◌, ◌∷◌, [], ◌++◌, OnOk, map};
ghost use Rattle.name_steps.specs.PatternNames.{binds_of, constructors_of, joined, spot_of};

use elm_base::{At, Name, NoMemory, Pattern, Spot};
use sqlite_items::Items;
use std::alloc::Global;

/// Appends a name at its place.
pub fn push_spot(alloc: Global, at: At, name: &Name, out: &mut Items<Spot>) -> Result<(), NoMemory>
    ensures { OnOk result (out.new ≡ out.old ++ spot_of at name.now ∷ []) }
{
    let name = name.copy(alloc)?;
    out.push(Spot { at, name })?;
    Ok(())
}

pub fn push_spots(alloc: Global, spots: &[Spot], out: &mut Items<Spot>) -> Result<(), NoMemory>
    ensures { OnOk result (out.new ≡ out.old ++ spots.now) }
{
    for spot in spots {
        push_spot(alloc, spot.at, &spot.name, out)?;
    }
    Ok(())
}

/// Appends what the pattern binds.
#[cycle(binds)]
pub fn push_binds(alloc: Global, tree: &Pattern, out: &mut Items<Spot>) -> Result<(), NoMemory>
    ensures { OnOk result (out.new ≡ out.old ++ binds_of tree.now) }
{
    match tree {
        Pattern::Variable { at, name } => push_spot(alloc, *at, name, out),
        Pattern::Made { parts, .. } => push_all_binds(alloc, parts.as_slice(), out),
        Pattern::Cons { head, tail, .. } => {
            push_binds(alloc, head.get(), out)?;
            push_binds(alloc, tail.get(), out)
        }
        Pattern::List { parts, .. } => push_all_binds(alloc, parts.as_slice(), out),
        Pattern::Tuple { parts, .. } => push_all_binds(alloc, parts.as_slice(), out),
        Pattern::Fields { labels, .. } => push_spots(alloc, labels.as_slice(), out),
        Pattern::Brackets { inner, .. } => push_binds(alloc, inner.get(), out),
        Pattern::Named { inner, name, .. } => {
            push_binds(alloc, inner.get(), out)?;
            push_spot(alloc, name.at, &name.name, out)
        }
        _ => Ok(()),
    }
}

#[cycle(binds)]
fn push_all_binds(alloc: Global, trees: &[Pattern], out: &mut Items<Spot>) -> Result<(), NoMemory>
    ensures { OnOk result (out.new ≡ out.old ++ joined (map binds_of trees.now)) }
{
    for tree in trees {
        push_binds(alloc, tree, out)?;
    }
    Ok(())
}

/// Appends the constructors that the pattern names.
#[cycle(constructors)]
pub fn push_constructors(
    alloc: Global,
    tree: &Pattern,
    out: &mut Items<Spot>,
) -> Result<(), NoMemory>
    ensures { OnOk result (out.new ≡ out.old ++ constructors_of tree.now) }
{
    match tree {
        Pattern::Made {
            at,
            constructor,
            parts,
        } => {
            push_spot(alloc, *at, constructor, out)?;
            push_all_constructors(alloc, parts.as_slice(), out)
        }
        Pattern::Cons { head, tail, .. } => {
            push_constructors(alloc, head.get(), out)?;
            push_constructors(alloc, tail.get(), out)
        }
        Pattern::List { parts, .. } => push_all_constructors(alloc, parts.as_slice(), out),
        Pattern::Tuple { parts, .. } => push_all_constructors(alloc, parts.as_slice(), out),
        Pattern::Brackets { inner, .. } => push_constructors(alloc, inner.get(), out),
        Pattern::Named { inner, .. } => push_constructors(alloc, inner.get(), out),
        _ => Ok(()),
    }
}

#[cycle(constructors)]
fn push_all_constructors(
    alloc: Global,
    trees: &[Pattern],
    out: &mut Items<Spot>,
) -> Result<(), NoMemory>
    ensures { OnOk result (out.new ≡ out.old ++ joined (map constructors_of trees.now)) }
{
    for tree in trees {
        push_constructors(alloc, tree, out)?;
    }
    Ok(())
}
