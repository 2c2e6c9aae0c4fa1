//! Calls, ranges, and what is held to a written type.
ghost use Rattle.std.specs.Prelude.{◌≡◌, IfOk, true};
ghost use Rattle.type_conditions.specs.Conditions.{Excludes, terms_in};
ghost use Rattle.type_conditions.specs.Judging.{Adds, HasOne};
ghost use Rattle.type_rules.specs.Ruled.{IsCall, IsHeld, IsRange};
ghost use Rattle.type_sense.specs.WrittenOf.{written_of};
ghost use Rattle.type_unify.specs.Refused.{OnRefusal};
ghost use Rattle.type_unify.specs.Rests.{IsType};
ghost use Rattle.written_sorts.specs.Sorting.{bars_hold};

use crate::bases::{hold_base, list_of};
use crate::given::given;
use elm_base::{Halt, TypeTree};
use std::alloc::Global;
use type_conditions::Conditions;
use type_instances::instance;
use type_terms::{Flag, NoSolution, Shape, TermId};

/// A new term for what the function gives. Refused only where it can't be called so.
pub fn call(
    alloc: Global,
    conditions: &mut Conditions,
    function: TermId,
    argument: TermId,
) -> Result<TermId, Halt<NoSolution>>
    requires function { IsType (terms_in conditions.old) function }
    requires argument { IsType (terms_in conditions.old) argument }
    ensures adds { IfOk result (Adds conditions.old conditions.new (IsCall function argument)) }
    ensures refused { OnRefusal result
        (Excludes conditions.old (HasOne (IsCall function argument))) }
{
    let result = conditions.variable(Flag::Plain)?;
    let whole = conditions.make(Shape::Arrow {
        from: argument,
        to: result,
    })?;
    given(conditions.equate(alloc, function, whole), result)
}

/// A new term for a list of numbers from one to another. Refused only where these are none.
pub fn range(
    alloc: Global,
    conditions: &mut Conditions,
    low: TermId,
    high: TermId,
) -> Result<TermId, Halt<NoSolution>>
    requires low { IsType (terms_in conditions.old) low }
    requires high { IsType (terms_in conditions.old) high }
    ensures adds { IfOk result (Adds conditions.old conditions.new (IsRange low high)) }
    ensures refused { OnRefusal result (Excludes conditions.old (HasOne (IsRange low high))) }
{
    match hold_base(alloc, conditions, low, b"Basics.Int") {
        Ok(()) => {}
        Err(halt) => return Err(halt),
    }
    match hold_base(alloc, conditions, high, b"Basics.Int") {
        Ok(()) => {}
        Err(halt) => return Err(halt),
    }
    let whole = list_of(alloc, conditions, low)?;
    Ok(whole)
}

/// A new term for the term's type, where it is an instance of what is written. Refused only where it is none.
pub fn held(
    alloc: Global,
    conditions: &mut Conditions,
    at: TermId,
    tree: &TypeTree,
) -> Result<TermId, Halt<NoSolution>>
    requires term { IsType (terms_in conditions.old) at }
    requires bars { bars_hold (written_of tree.now) ≡ true }
    ensures adds { IfOk result
        (Adds conditions.old conditions.new (IsHeld (written_of tree.now) at)) }
    ensures refused { OnRefusal result
        (Excludes conditions.old (HasOne (IsHeld (written_of tree.now) at))) }
{
    let wanted = instance(alloc, tree, conditions)?;
    given(conditions.equate(alloc, at, wanted), wanted)
}
