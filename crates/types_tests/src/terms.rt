//! The store itself: terms, flags, notes, links and marks.

ghost use Rattle.std.specs.Prelude.{◌≡◌, ◌++◌, ◌∷◌, [], codes, length, IfOk, OnOk};
ghost use Rattle.elm_typing.specs.declared.flag.Flag.TheVariants.{Plain};
ghost use Rattle.type_terms.specs.declared.node.Node.TheVariants.{End};
ghost use Rattle.type_terms.specs.declared.shape.Shape.TheVariants as shape;
ghost use Rattle.type_terms.specs.Terms.{nodes_of};

use crate::same;
use elm_base::{Name, NoMemory};
use sqlite_items::Items;
use std::alloc::Global;
use std::process::Abort;
use type_terms::{Flag, Shape, Store, TermId};

// The type of this name without arguments.
fn named(alloc: Global, store: &mut Store, name: &[u8]) -> Result<TermId, NoMemory>
    ensures place { IfOk result (λ at. at ≡ length (nodes_of store.old)) }
    ensures nodes { OnOk result
        (nodes_of store.new ≡ nodes_of store.old ++ End (shape.Named name.now []) ∷ []) }
{
    let name = Name::of(alloc, name)?;
    store.make(Shape::Named {
        name,
        arguments: Items::new(alloc),
    })
}

// An unflagged variable, which is term 0, and Int, which is term 1.
fn variable_and_int(alloc: Global) -> Result<Store, NoMemory>
    ensures { IfOk result (λ store. nodes_of store ≡
        End (shape.Variable Plain) ∷ End (shape.Named (codes "Basics.Int") []) ∷ []) }
{
    let mut store = Store::new(alloc)?;
    store.fresh(Flag::Plain)?;
    named(alloc, &mut store, b"Basics.Int")?;
    Ok(store)
}

// The flag of a variable, if it is one.
fn flag(store: &Store, at: TermId) -> Option<Flag> {
    if store.terms() <= at as usize {
        return None;
    }
    match store.shape(at) {
        Shape::Variable { flag } => Some(*flag),
        _ => None,
    }
}

fn is_named(shape: &Shape) -> bool {
    matches!(shape, Shape::Named { .. })
}

fn take_back(rt: &impl Abort, alloc: Global, store: &mut Store) -> Result<(), NoMemory>
    requires { store.old ≡ record { nodes = []; notes = [] } ∷ [] }
{
    let first = store.fresh(Flag::Comparable)?;
    let mark = store.mark();
    store.narrow(first, Flag::Appendable)?;
    let second = named(alloc, store, b"Basics.Int")?;
    store.sort_below(first, second)?;
    let both = flag(store, first);
    same(rt, both, Some(Flag::Both), "both flags");
    same(rt, store.terms(), 2, "terms");
    same(rt, store.notes(), [(0, 1)].as_slice(), "notes");
    store.undo(mark);
    let again = flag(store, first);
    same(rt, again, Some(Flag::Comparable), "the flag");
    same(rt, store.terms(), 1, "the term");
    same(rt, store.notes().len(), 0, "no notes");
    Ok(())
}

#[test]
fn terms_flags_and_notes_are_taken_back(rt: HostRuntime) -> Result<(), NoMemory> {
    let mut store = Store::new(rt.alloc())?;
    take_back(&rt, rt.alloc(), &mut store)
}

#[test]
fn a_link_leads_to_its_end(rt: HostRuntime) -> Result<(), NoMemory> {
    let mut store = variable_and_int(rt.alloc())?;
    let mark = store.mark();
    store.link(0, 1)?;
    let linked = (store.find(0), is_named(store.shape(0)));
    same(&rt, linked, (1, true), "the end of the link");
    store.undo(mark);
    let again = (store.find(0), is_named(store.shape(0)));
    same(&rt, again, (0, false), "the variable");
    Ok(())
}
