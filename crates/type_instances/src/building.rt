//! Terms for instances of written types.
ghost use Rattle.std.specs.Prelude.{◌≡◌, IfOk};
ghost use Rattle.type_sense.specs.WrittenOf.{name_before, written_of};
ghost use Rattle.type_instances.specs.Building.{Builds, BuildsAll, BuildsFields};
ghost use Rattle.type_instances.specs.Listing.{uses_in_trees, uses_of_fields};
ghost use Rattle.type_instances.specs.Tables as spec;
ghost use Rattle.type_instances.specs.Tables.{IsTable, Serves};
ghost use Rattle.type_instances.specs.Uses.{uses};

use crate::table::{Variable, tail_of, term_of};
use elm_base::{Name, NoMemory, Spot, TypeTree};
use sqlite_items::Items;
use std::alloc::Global;
use type_conditions::{Conditions, Tail};
use type_terms::{Shape, TermId};

/// The tail of the variable before the bar.
fn tail_before(before: &Option<Spot>, table: &[Variable]) -> Tail
    ensures { result ≡ spec.tail_before table.now (name_before before.now) }
{
    match before {
        None => Tail::Closed,
        Some(spot) => tail_of(table, spot.name.bytes()),
    }
}

/// A term for the instance of the type, without aliases, in which each variable stands for the type of its term in the table.
#[cycle(build)]
pub fn build(
    alloc: Global,
    tree: &TypeTree,
    table: &[Variable],
    conditions: &mut Conditions,
) -> Result<TermId, NoMemory>
    requires table { IsTable conditions.old table.now }
    requires served { Serves table.now (uses (written_of tree.now)) }
    ensures { IfOk result (Builds table.now conditions.old conditions.new (written_of tree.now)) }
{
    match tree {
        TypeTree::Variable { name, .. } => Ok(term_of(table, name.bytes())),
        TypeTree::Named {
            name,
            arguments,
            ..
        } => {
            let name = name.copy(alloc)?;
            let arguments = build_all(alloc, arguments.as_slice(), table, conditions)?;
            conditions.make(Shape::Named { name, arguments })
        }
        TypeTree::Arrow { from, to, .. } => {
            let from = build(alloc, from.get(), table, conditions)?;
            let to = build(alloc, to.get(), table, conditions)?;
            conditions.make(Shape::Arrow { from, to })
        }
        TypeTree::Unit { .. } => conditions.make(Shape::Tuple {
            parts: Items::new(alloc),
        }),
        TypeTree::Tuple { parts, .. } => {
            let parts = build_all(alloc, parts.as_slice(), table, conditions)?;
            conditions.make(Shape::Tuple { parts })
        }
        TypeTree::Brackets { inner, .. } => build(alloc, inner.get(), table, conditions),
        TypeTree::Fields { before, fields, .. } => {
            let fields = build_fields(alloc, fields.as_slice(), table, conditions)?;
            conditions.make_row(fields, tail_before(before, table))
        }
    }
}

#[cycle(build)]
fn build_all(
    alloc: Global,
    trees: &[TypeTree],
    table: &[Variable],
    conditions: &mut Conditions,
) -> Result<Items<TermId>, NoMemory>
    requires table { IsTable conditions.old table.now }
    requires served { Serves table.now (uses_in_trees trees.now) }
    ensures { IfOk result (BuildsAll table.now conditions.old conditions.new trees.now) }
{
    let mut terms = Items::new(alloc);
    for tree in trees {
        terms.push(build(alloc, tree, table, conditions)?)?;
    }
    Ok(terms)
}

#[cycle(build)]
fn build_fields(
    alloc: Global,
    fields: &[(Spot, TypeTree)],
    table: &[Variable],
    conditions: &mut Conditions,
) -> Result<Items<(Name, TermId)>, NoMemory>
    requires table { IsTable conditions.old table.now }
    requires served { Serves table.now (uses_of_fields fields.now) }
    ensures { IfOk result (BuildsFields table.now conditions.old conditions.new fields.now) }
{
    let mut made = Items::new(alloc);
    for (label, tree) in fields {
        let label = label.name.copy(alloc)?;
        made.push((label, build(alloc, tree, table, conditions)?))?;
    }
    Ok(made)
}
