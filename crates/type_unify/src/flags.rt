//! Terms whose types are to have a flag.

ghost use Rattle.std.specs.Prelude.{◌↔◌, IsTrue, IfOk, OnOk};
ghost use Rattle.elm_typing.specs.declared.flag.Flag.TheVariants.{Comparable, Appendable};
ghost use Rattle.elm_typing.specs.Flags.{IsComparable, IsAppendable, HasFlag};
ghost use Rattle.type_unify.specs.Flagged.{AllowsOrder, AllowsJoining, IsBase, Demands, Narrows};
ghost use Rattle.type_unify.specs.Grown.{IsGrown};
ghost use Rattle.type_unify.specs.Refused.{OnRefusal};
ghost use Rattle.type_unify.specs.Rests.{RestsApart, IsType};
ghost use Rattle.type_terms.specs.Solutions.{Never};
ghost use Rattle.type_terms.specs.Terms.{nodes_of};

use crate::parts::{is_variable, push_parts};
use crate::read::shape_at;
use elm_base::{Halt, Name, NoMemory};
use sqlite_items::Items;
use std::alloc::Global;
use type_terms::{Flag, NoSolution, Shape, Store, TermId};

/// Whether types of this shape are comparable where all parts are.
fn allows_order(shape: &Shape) -> bool
    ensures { IsTrue result ↔ AllowsOrder shape.now }
{
    match shape {
        Shape::Opaque { number: _, flag } => match flag {
            Flag::Comparable => true,
            Flag::Both => true,
            _ => false,
        },
        Shape::Named { name, arguments } => match arguments.as_slice().len() {
            0 => is_base(name),
            1 => name.is(b"Basics.List"),
            _ => false,
        },
        Shape::Tuple { parts } => !parts.is_empty(),
        _ => false,
    }
}

/// Whether the name is that of a comparable type without arguments.
fn is_base(name: &Name) -> bool
    ensures { IsTrue result ↔ IsBase name.now }
{
    name.is(b"Basics.Int") || name.is(b"Basics.Char") || name.is(b"Basics.String")
}

/// Whether types of this shape are appendable.
fn allows_joining(shape: &Shape) -> bool
    ensures { IsTrue result ↔ AllowsJoining shape.now }
{
    match shape {
        Shape::Opaque { number: _, flag } => match flag {
            Flag::Appendable => true,
            Flag::Both => true,
            _ => false,
        },
        Shape::Named { name, arguments } => match arguments.as_slice().len() {
            0 => name.is(b"Basics.String"),
            1 => name.is(b"Basics.List"),
            _ => false,
        },
        _ => false,
    }
}

/// A variable whose type is to have the flag.
#[derive(Clone, Copy)]
struct Demand {
    at: TermId,
    flag: Flag,
}

/// What makes the type of the term comparable.
fn order_demands(
    alloc: Global,
    store: &Store,
    at: TermId,
) -> Result<Items<Demand>, Halt<NoSolution>>
    requires is_type { IsType (nodes_of store.now) at }
    requires apart { RestsApart (nodes_of store.now) }
    ensures found { IfOk result (Demands (nodes_of store.now) at Comparable) }
    ensures refused { OnRefusal result (Never (nodes_of store.now) (λ s. IsComparable (s at))) }
{
    let mut waiting = Items::new(alloc);
    waiting.push(at)?;
    let mut found = Items::new(alloc);
    'terms: while let Some(term) = waiting.pop() {
        let end = store.find(term);
        let shape = shape_at(store, end);
        if is_variable(shape) {
            found.push(Demand {
                at: end,
                flag: Flag::Comparable,
            })?;
        } else {
            if !allows_order(shape) {
                return Err(Halt::Because(NoSolution));
            }
            push_parts(shape, &mut waiting)?;
        }
    }
    Ok(found)
}

/// What makes the type of the term appendable.
fn joining_demands(
    alloc: Global,
    store: &Store,
    at: TermId,
) -> Result<Items<Demand>, Halt<NoSolution>>
    requires is_type { IsType (nodes_of store.now) at }
    requires apart { RestsApart (nodes_of store.now) }
    ensures found { IfOk result (Demands (nodes_of store.now) at Appendable) }
    ensures refused { OnRefusal result (Never (nodes_of store.now) (λ s. IsAppendable (s at))) }
{
    let mut found = Items::new(alloc);
    let end = store.find(at);
    let shape = shape_at(store, end);
    if is_variable(shape) {
        found.push(Demand {
            at: end,
            flag: Flag::Appendable,
        })?;
        return Ok(found);
    }
    if !allows_joining(shape) {
        return Err(Halt::Because(NoSolution));
    }
    Ok(found)
}

/// What makes the type of the term have the flag.
fn demands(
    alloc: Global,
    store: &Store,
    at: TermId,
    flag: Flag,
) -> Result<Items<Demand>, Halt<NoSolution>>
    requires is_type { IsType (nodes_of store.now) at }
    requires apart { RestsApart (nodes_of store.now) }
    ensures found { IfOk result (Demands (nodes_of store.now) at flag) }
    ensures refused { OnRefusal result (Never (nodes_of store.now) (λ s. HasFlag flag (s at))) }
{
    match flag {
        Flag::Plain => Ok(Items::new(alloc)),
        Flag::Comparable => order_demands(alloc, store, at),
        Flag::Appendable => joining_demands(alloc, store, at),
        Flag::Both => {
            let mut found = order_demands(alloc, store, at)?;
            found.append(joining_demands(alloc, store, at)?)?;
            Ok(found)
        }
    }
}

/// The solutions are those of before in which the type of the term has the flag.
pub fn narrow_all(
    alloc: Global,
    store: &mut Store,
    at: TermId,
    flag: Flag,
) -> Result<(), Halt<NoSolution>>
    requires is_type { IsType (nodes_of store.old) at }
    requires apart { RestsApart (nodes_of store.old) }
    ensures grown { IsGrown store.old store.new }
    ensures narrowed { OnOk result (Narrows (nodes_of store.old) (nodes_of store.new) at flag) }
    ensures refused { OnRefusal result (Never (nodes_of store.old) (λ s. HasFlag flag (s at))) }
{
    let mut found = demands(alloc, store, at, flag)?;
    'demands: while let Some(demand) = found.pop() {
        store.narrow(demand.at, demand.flag)?;
    }
    Ok(())
}
