//! Steps are taken: variables are bound to terms and to new rows.

ghost use Rattle.std.specs.Prelude.{◌≢◌, IfOk, OnOk};
ghost use Rattle.elm_typing.specs.Ground.{Row, Record};
ghost use Rattle.elm_typing.specs.Ordered.{RowInOrder};
ghost use Rattle.elm_typing.specs.Rows.{extended_all};
ghost use Rattle.type_unify.specs.Refused.{OnRefusal};
ghost use Rattle.type_unify.specs.declared.step.Step.TheVariants.{Done, Binds, Extends, Splits};
ghost use Rattle.type_unify.specs.Grown.{IsGrown};
ghost use Rattle.type_unify.specs.declared.rows.Tail.TheVariants.{Open};
ghost use Rattle.type_unify.specs.Rests.{RestsApart, IsType};
ghost use Rattle.type_unify.specs.Steps.{IsTail, Holds, CanBind, CanExtend, CanSplit, CanTake};
ghost use Rattle.type_unify.specs.Taken.{Takes, OpensRest};
ghost use Rattle.type_terms.specs.Solutions.{Assignment, Never, Solves, fields_of};
ghost use Rattle.type_terms.specs.Terms.{nodes_of, terms_of, Each};

use crate::bind::bind;
use crate::rows::{Tail, rest_term};
use crate::step::Step;
use elm_base::{Halt, Name};
use sqlite_items::Items;
use std::alloc::Global;
use type_terms::{Flag, NoSolution, Shape, Store, TermId};

/// The rest is to be these fields over the tail.
fn extend_rest(
    alloc: Global,
    store: &mut Store,
    at: TermId,
    fields: Items<(Name, TermId)>,
    tail: Tail,
) -> Result<(), Halt<NoSolution>>
    requires can { CanExtend (nodes_of store.old) at fields tail }
    requires apart { RestsApart (nodes_of store.old) }
    ensures grown { IsGrown store.old store.new }
    ensures taken { OnOk result
        (Takes (nodes_of store.old) (nodes_of store.new) (Extends at fields tail)) }
    ensures refused { OnRefusal result
        (Never (nodes_of store.old) (λ s. Holds s (Extends at fields tail))) }
{
    let end = store.find(at);
    let row = store.make(Shape::Row {
        fields,
        rest: rest_term(tail),
    })?;
    bind(alloc, store, end, row)
}

/// The rest is to be these fields over a new rest, which is the answer.
fn open_rest(
    alloc: Global,
    store: &mut Store,
    at: TermId,
    fields: Items<(Name, TermId)>,
) -> Result<TermId, Halt<NoSolution>>
    requires source { IsTail (nodes_of store.old) (Open at) }
    requires types { Each (IsType (nodes_of store.old)) (terms_of fields) }
    requires apart { RestsApart (nodes_of store.old) }
    ensures grown { IsGrown store.old store.new }
    ensures opened { IfOk result (OpensRest (nodes_of store.old) (nodes_of store.new) at fields) }
    ensures refused { OnRefusal result
        ((s : Assignment) (row : Row) → Solves (nodes_of store.old) s → RowInOrder row
        → s at ≢ Record (extended_all (fields_of s fields) row)) }
{
    let end = store.find(at);
    let variable = store.fresh(Flag::Plain)?;
    let rest = store.find(variable);
    let row = store.make(Shape::Row {
        fields,
        rest: Some(rest),
    })?;
    match bind(alloc, store, end, row) {
        Ok(()) => Ok(rest),
        Err(halt) => Err(halt),
    }
}

/// The two rests are to be such that the left fields over the first are the right fields over the second: each is
/// the fields of the other over a new rest.
fn split_rests(
    alloc: Global,
    store: &mut Store,
    left: Items<(Name, TermId)>,
    x: TermId,
    right: Items<(Name, TermId)>,
    y: TermId,
) -> Result<(), Halt<NoSolution>>
    requires can { CanSplit (nodes_of store.old) left x right y }
    requires apart { RestsApart (nodes_of store.old) }
    ensures grown { IsGrown store.old store.new }
    ensures taken { OnOk result
        (Takes (nodes_of store.old) (nodes_of store.new) (Splits left x right y)) }
    ensures refused { OnRefusal result
        (Never (nodes_of store.old) (λ s. Holds s (Splits left x right y))) }
{
    match open_rest(alloc, store, x, right) {
        Ok(rest) => extend_rest(alloc, store, y, left, Tail::Open { at: rest }),
        Err(halt) => Err(halt),
    }
}

/// Takes a step that asks for something.
pub fn take(alloc: Global, store: &mut Store, step: Step) -> Result<(), Halt<NoSolution>>
    requires can { CanTake (nodes_of store.old) step }
    requires some { step ≢ Done }
    requires apart { RestsApart (nodes_of store.old) }
    ensures grown { IsGrown store.old store.new }
    ensures taken { OnOk result (Takes (nodes_of store.old) (nodes_of store.new) step) }
    ensures refused { OnRefusal result (Never (nodes_of store.old) (λ s. Holds s step)) }
{
    match step {
        Step::Done => Ok(()),
        Step::Clash => Err(Halt::Because(NoSolution)),
        Step::Binds { at, to } => bind(alloc, store, at, to),
        Step::Extends { at, fields, tail } => extend_rest(alloc, store, at, fields, tail),
        Step::Splits { left, x, right, y } => split_rests(alloc, store, left, x, right, y),
    }
}
