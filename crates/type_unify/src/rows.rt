//! Rows as lists of fields with what stands behind them all.

ghost use Rattle.std.specs.Prelude.{◌≡◌, ◌<◌, ◌++◌, length, IfOk, OnOk};
ghost use Rattle.elm_typing.specs.Ground.{Record};
ghost use Rattle.type_unify.specs.Rests.{RestsApart};
ghost use Rattle.type_unify.specs.Steps.{IsRow, IsTail, Flattens, under};
ghost use Rattle.type_unify.specs.Taken.{rest_term};
ghost use Rattle.type_terms.specs.Solutions.{Always};
ghost use Rattle.type_terms.specs.Terms.{nodes_of, node_at, IsRest, IsLink};

use crate::read::shape_at;
use elm_base::{Name, NoMemory};
use sqlite_items::Items;
use std::alloc::Global;
use type_terms::{Shape, Store, TermId};

/// What stands behind the fields of a row.
#[derive(Clone, Copy)]
pub enum Tail {
    /// No more.
    Closed,
    /// The opaque type of this number, at this place of the store.
    Rigid { at: TermId, number: u32 },
    /// The variable at this place of the store.
    Open { at: TermId },
}

/// The term at which the tail stands.
pub fn rest_term(tail: Tail) -> Option<TermId>
    ensures { result ≡ rest_term tail }
{
    match tail {
        Tail::Closed => None,
        Tail::Rigid { at, number: _ } => Some(at),
        Tail::Open { at } => Some(at),
    }
}

/// All fields of a row, of one label the newest first, and what stands behind them.
#[derive(Drop)]
pub struct Flat {
    pub fields: Items<(Name, TermId)>,
    pub tail: Tail,
}

/// Adds fields of their own behind the others.
fn push_fields(
    alloc: Global,
    fields: &mut Items<(Name, TermId)>,
    more: &[(Name, TermId)],
) -> Result<(), NoMemory>
    ensures { OnOk result (fields.new ≡ fields.old ++ more.now) }
{
    for field in more {
        fields.push((field.0.copy(alloc)?, field.1))?;
    }
    Ok(())
}

/// The tail that a rest is.
fn tail_at(store: &Store, at: TermId) -> Tail
    requires inside { at < length (nodes_of store.now) }
    requires rest { IsRest (nodes_of store.now) at }
    requires end { IsLink (node_at (nodes_of store.now) at) → ⊥ }
    requires no_row { IsRow (node_at (nodes_of store.now) at) → ⊥ }
    requires apart { RestsApart (nodes_of store.now) }
    ensures tail { IsTail (nodes_of store.now) result }
    ensures same { Always (nodes_of store.now) (λ s. s at ≡ Record (under s result)) }
{
    match shape_at(store, at) {
        Shape::Opaque { number, flag: _ } => Tail::Rigid {
            at,
            number: *number,
        },
        _ => Tail::Open { at },
    }
}

/// The row at this term, through its rests.
pub fn flatten(alloc: Global, store: &Store, at: TermId) -> Result<Flat, NoMemory>
    requires inside { at < length (nodes_of store.now) }
    requires row { IsRow (node_at (nodes_of store.now) at) }
    requires apart { RestsApart (nodes_of store.now) }
    ensures { IfOk result (λ flat. Flattens store.now at flat) }
{
    let mut fields = Items::new(alloc);
    let mut end = at;
    'rests: while let Shape::Row { fields: more, rest } = shape_at(store, end) {
        push_fields(alloc, &mut fields, more.as_slice())?;
        match rest {
            None => {
                return Ok(Flat {
                    fields,
                    tail: Tail::Closed,
                });
            }
            Some(next) => end = store.find(*next),
        }
    }
    Ok(Flat {
        fields,
        tail: tail_at(store, end),
    })
}
