//! Copies of a scheme's parts and notes, as terms of conditions.

ghost use Rattle.std.specs.Prelude.{◌≡◌, ◌<◌, [], length, map, IfOk, OnOk};
ghost use Rattle.type_terms.specs.Depth.{AreNotesBelow, IsBelow};
ghost use Rattle.type_terms.specs.Terms.{Each, parts, terms_of};
ghost use Rattle.type_conditions.specs.Judging.{Adds, KeepsTails};
ghost use Rattle.type_unify.specs.Steps.{IsTail};
ghost use Rattle.type_conditions.specs.Conditions.{terms_in};
ghost use Rattle.type_schemes.specs.Schemes.{IsOver, AreOver, MayEnd};
ghost use Rattle.type_schemes.specs.Copies as spec;
ghost use Rattle.type_schemes.specs.Copies.{AreCopied, IsCopied, IsRestOf, IsTable, JudgesShape, fields_over, term_at};
ghost use Rattle.type_schemes.specs.Copies.{RestrictsSorts};

use crate::part::Part;
use elm_base::{Name, NoMemory};
use sqlite_items::Items;
use std::alloc::Global;
use type_conditions::{Conditions, Tail};
use type_terms::{Shape, TermId};

/// The copy of a part: its term, and for what may end a row its tail, with which the term is a row without fields.
#[derive(Clone, Copy)]
pub struct Entry {
    pub at: TermId,
    pub tail: Tail,
}

// The terms of these parts.
fn terms_at(alloc: Global, table: &[Entry], parts: &[TermId]) -> Result<Items<TermId>, NoMemory>
    requires { Each (IsBelow (length table.now)) parts.now }
    ensures { IfOk result (λ terms. terms ≡ map (term_at table.now) parts.now) }
{
    let mut terms = Items::new(alloc);
    for part in parts {
        terms.push(table[*part as usize].at)?;
    }
    Ok(terms)
}

// The fields over the terms of their parts.
fn fields_at(
    alloc: Global,
    table: &[Entry],
    fields: &[(Name, TermId)],
) -> Result<Items<(Name, TermId)>, NoMemory>
    requires { Each (IsBelow (length table.now)) (terms_of fields.now) }
    ensures { IfOk result (λ made. made ≡ fields_over (term_at table.now) fields.now) }
{
    let mut made = Items::new(alloc);
    for (label, part) in fields {
        made.push((label.copy(alloc)?, table[*part as usize].at))?;
    }
    Ok(made)
}

// The tail of the part that ends a row.
fn tail_at(table: &[Entry], rest: Option<TermId>) -> Tail
    requires { MayEnd (length table.now) rest }
    ensures { result ≡ spec.tail_at table.now rest }
{
    match rest {
        None => Tail::Closed,
        Some(part) => table[part as usize].tail,
    }
}

// A new term of this shape, over the terms of its parts.
fn copy_shape(
    alloc: Global,
    shape: &Shape,
    table: &[Entry],
    conditions: &mut Conditions,
) -> Result<TermId, NoMemory>
    requires table { IsTable conditions.old table.now }
    requires below { Each (IsBelow (length table.now)) (parts shape.now) }
    requires rest { IsRestOf conditions.old table.now shape.now }
    ensures adds { IfOk result (Adds conditions.old conditions.new
        (JudgesShape table.now shape.now)) }
    ensures tails { OnOk result (KeepsTails conditions.old conditions.new) }
{
    match shape {
        Shape::Variable { flag } => conditions.make(Shape::Variable { flag: *flag }),
        Shape::Opaque { number, flag } => conditions.make(Shape::Opaque {
            number: *number,
            flag: *flag,
        }),
        Shape::Named { name, arguments } => {
            let name = name.copy(alloc)?;
            let arguments = terms_at(alloc, table, arguments.as_slice())?;
            conditions.make(Shape::Named { name, arguments })
        }
        Shape::Arrow { from, to } => {
            let from = table[*from as usize].at;
            let to = table[*to as usize].at;
            conditions.make(Shape::Arrow { from, to })
        }
        Shape::Tuple { parts } => {
            let parts = terms_at(alloc, table, parts.as_slice())?;
            conditions.make(Shape::Tuple { parts })
        }
        Shape::Row { fields, rest } => {
            let fields = fields_at(alloc, table, fields.as_slice())?;
            conditions.make_row(fields, tail_at(table, *rest))
        }
    }
}

// A new row without fields over the tail.
fn copy_tail(alloc: Global, tail: Tail, conditions: &mut Conditions) -> Result<Entry, NoMemory>
    requires { IsTail (terms_in conditions.old) tail }
    ensures { IfOk result (spec.IsRowOver conditions.old conditions.new tail) }
{
    let at = conditions.make_row(Items::new(alloc), tail)?;
    Ok(Entry { at, tail })
}

// The copy of a part, over those of the parts before it.
fn copy_part(
    alloc: Global,
    part: &Part,
    table: &[Entry],
    conditions: &mut Conditions,
) -> Result<Entry, NoMemory>
    requires table { IsTable conditions.old table.now }
    requires over { spec.MayCopy conditions.old table.now part.now }
    ensures { IfOk result (IsCopied table.now conditions.old conditions.new part.now) }
{
    match part {
        Part::Rest => {
            let tail = conditions.make_rest(alloc)?;
            copy_tail(alloc, tail, conditions)
        }
        Part::Rigid { number } => {
            let tail = conditions.make_rigid_rest(alloc, *number)?;
            copy_tail(alloc, tail, conditions)
        }
        Part::Shaped { shape } => {
            let at = copy_shape(alloc, shape, table, conditions)?;
            let tail = Tail::Closed;
            Ok(Entry { at, tail })
        }
    }
}

/// New terms for all parts, in order.
pub fn copy_parts(
    alloc: Global,
    parts: &[Part],
    conditions: &mut Conditions,
) -> Result<Items<Entry>, NoMemory>
    requires { AreOver [] parts.now }
    ensures { IfOk result (AreCopied conditions.old conditions.new parts.now) }
{
    let mut table = Items::new(alloc);
    for part in parts {
        table.push(copy_part(alloc, part, table.as_slice(), conditions)?)?;
    }
    Ok(table)
}

/// Asks the notes of the terms of their parts.
pub fn copy_notes(
    notes: &[(TermId, TermId)],
    table: &[Entry],
    conditions: &mut Conditions,
) -> Result<(), NoMemory>
    requires table { IsTable conditions.old table.now }
    requires below { AreNotesBelow (length table.now) notes.now }
    ensures { OnOk result (RestrictsSorts table.now conditions.old conditions.new notes.now) }
{
    for (below, above) in notes {
        conditions.at_most(table[*below as usize].at, table[*above as usize].at)?;
    }
    Ok(())
}
