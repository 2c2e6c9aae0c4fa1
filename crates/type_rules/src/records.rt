//! Records.
ghost use Rattle.std.specs.Prelude.{IfOk, OnOk, [], ◌∷◌};
ghost use Rattle.type_conditions.specs.Conditions.{Excludes, terms_in};
ghost use Rattle.type_conditions.specs.Judging.{Adds, HasFields, HasOne, KeepsTails, Restricts};
ghost use Rattle.type_rules.specs.Ruled.{HasNewest, IsExtension, IsField, IsRemoval};
ghost use Rattle.type_terms.specs.Terms.{Each, terms_of};
ghost use Rattle.type_unify.specs.Refused.{OnRefusal};
ghost use Rattle.type_unify.specs.Rests.{IsType};
ghost use Rattle.type_unify.specs.Steps.{IsTail};

use crate::given::given;
use elm_base::{Halt, Name, NoMemory};
use sqlite_items::Items;
use std::alloc::Global;
use type_conditions::{Conditions, Tail};
use type_terms::{Flag, NoSolution, TermId};

/// A new term for the type of the record's newest field of the label. Refused only where it has none.
pub fn field(
    alloc: Global,
    conditions: &mut Conditions,
    from: TermId,
    label: &Name,
) -> Result<TermId, Halt<NoSolution>>
    requires { IsType (terms_in conditions.old) from }
    ensures adds { IfOk result (Adds conditions.old conditions.new (IsField from label.now)) }
    ensures refused { OnRefusal result
        (Excludes conditions.old (HasOne (IsField from label.now))) }
{
    let value = conditions.variable(Flag::Plain)?;
    given(has_newest(alloc, conditions, from, label, value), value)
}

/// The term is the type of the record's newest field of the label. Refused only where it can't be.
pub fn has_newest(
    alloc: Global,
    conditions: &mut Conditions,
    from: TermId,
    label: &Name,
    value: TermId,
) -> Result<(), Halt<NoSolution>>
    requires record { IsType (terms_in conditions.old) from }
    requires value { IsType (terms_in conditions.old) value }
    ensures restricts { OnOk result
        (Restricts conditions.old conditions.new (HasNewest from label.now value)) }
    ensures refused { OnRefusal result
        (Excludes conditions.old (HasNewest from label.now value)) }
{
    let tail = conditions.make_rest(alloc)?;
    let whole = one_over(alloc, conditions, label, value, tail)?;
    conditions.equate(alloc, from, whole)
}

/// A new term for the record without its newest field of the label. Refused only where it has none.
pub fn remove(
    alloc: Global,
    conditions: &mut Conditions,
    from: TermId,
    label: &Name,
) -> Result<TermId, Halt<NoSolution>>
    requires { IsType (terms_in conditions.old) from }
    ensures adds { IfOk result (Adds conditions.old conditions.new (IsRemoval from label.now)) }
    ensures refused { OnRefusal result
        (Excludes conditions.old (HasOne (IsRemoval from label.now))) }
{
    let value = conditions.variable(Flag::Plain)?;
    let tail = conditions.make_rest(alloc)?;
    let whole = one_over(alloc, conditions, label, value, tail)?;
    let rest = conditions.make_row(Items::new(alloc), tail)?;
    given(conditions.equate(alloc, from, whole), rest)
}

/// A new term for a record of these fields over another. Refused only where that is no record.
pub fn extend(
    alloc: Global,
    conditions: &mut Conditions,
    from: TermId,
    fields: Items<(Name, TermId)>,
) -> Result<TermId, Halt<NoSolution>>
    requires record { IsType (terms_in conditions.old) from }
    requires fields { Each (IsType (terms_in conditions.old)) (terms_of fields) }
    ensures adds { IfOk result (Adds conditions.old conditions.new (IsExtension from fields)) }
    ensures refused { OnRefusal result
        (Excludes conditions.old (HasOne (IsExtension from fields))) }
{
    let tail = conditions.make_rest(alloc)?;
    let whole = conditions.make_row(fields, tail)?;
    let before = conditions.make_row(Items::new(alloc), tail)?;
    given(conditions.equate(alloc, from, before), whole)
}

/// A new term for a record of one field over the row that the tail ends.
fn one_over(
    alloc: Global,
    conditions: &mut Conditions,
    label: &Name,
    value: TermId,
    tail: Tail,
) -> Result<TermId, NoMemory>
    requires value { IsType (terms_in conditions.old) value }
    requires tail { IsTail (terms_in conditions.old) tail }
    ensures adds { IfOk result (Adds conditions.old conditions.new
        (HasFields ((label.now, value) ∷ []) tail)) }
    ensures tails { OnOk result (KeepsTails conditions.old conditions.new) }
{
    let mut fields = Items::new(alloc);
    let label = label.copy(alloc)?;
    fields.push((label, value))?;
    conditions.make_row(fields, tail)
}
