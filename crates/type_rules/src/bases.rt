//! Types of literals, lists and signals.
ghost use Rattle.std.specs.Prelude.{IfOk, OnOk};
ghost use Rattle.type_conditions.specs.Conditions.{Excludes, terms_in};
ghost use Rattle.type_conditions.specs.Judging.{Adds, KeepsTails, Restricts};
ghost use Rattle.type_rules.specs.Ruled.{HasBase, IsBase, IsListOf, IsLiteral, IsSignalOf};
ghost use Rattle.type_unify.specs.Refused.{OnRefusal};
ghost use Rattle.type_unify.specs.Rests.{IsType};

use elm_base::{Halt, Literal, Name, NoMemory};
use sqlite_items::Items;
use std::alloc::Global;
use type_conditions::Conditions;
use type_terms::{NoSolution, Shape, TermId};

/// A new term for the type of this name, which takes no arguments.
pub fn base(alloc: Global, conditions: &mut Conditions, name: &[u8]) -> Result<TermId, NoMemory>
    ensures adds { IfOk result (Adds conditions.old conditions.new (IsBase name.now)) }
    ensures tails { OnOk result (KeepsTails conditions.old conditions.new) }
{
    let name = Name::of(alloc, name)?;
    conditions.make(Shape::Named {
        name,
        arguments: Items::new(alloc),
    })
}

/// A new term for the type of a literal.
pub fn literal(
    alloc: Global,
    conditions: &mut Conditions,
    value: &Literal,
) -> Result<TermId, NoMemory>
    ensures adds { IfOk result (Adds conditions.old conditions.new (IsLiteral value.now)) }
    ensures tails { OnOk result (KeepsTails conditions.old conditions.new) }
{
    match value {
        Literal::Int(_) => base(alloc, conditions, b"Basics.Int"),
        Literal::Char(_) => base(alloc, conditions, b"Basics.Char"),
        Literal::Text(_) => base(alloc, conditions, b"Basics.String"),
        Literal::Unit => conditions.make(Shape::Tuple {
            parts: Items::new(alloc),
        }),
    }
}

/// The term is the type of this name, which takes no arguments. Refused only where it can't be.
pub fn hold_base(
    alloc: Global,
    conditions: &mut Conditions,
    at: TermId,
    name: &[u8],
) -> Result<(), Halt<NoSolution>>
    requires { IsType (terms_in conditions.old) at }
    ensures restricts { OnOk result
        (Restricts conditions.old conditions.new (HasBase name.now at)) }
    ensures refused { OnRefusal result (Excludes conditions.old (HasBase name.now at)) }
{
    let wanted = base(alloc, conditions, name)?;
    conditions.equate(alloc, at, wanted)
}

/// A new term for lists of what the term stands for.
pub fn list_of(
    alloc: Global,
    conditions: &mut Conditions,
    element: TermId,
) -> Result<TermId, NoMemory>
    requires { IsType (terms_in conditions.old) element }
    ensures adds { IfOk result (Adds conditions.old conditions.new (IsListOf element)) }
    ensures tails { OnOk result (KeepsTails conditions.old conditions.new) }
{
    let name = Name::of(alloc, b"Basics.List")?;
    let mut arguments = Items::new(alloc);
    arguments.push(element)?;
    conditions.make(Shape::Named { name, arguments })
}

/// A new term for signals of what the term stands for.
pub fn signal_of(
    alloc: Global,
    conditions: &mut Conditions,
    value: TermId,
) -> Result<TermId, NoMemory>
    requires { IsType (terms_in conditions.old) value }
    ensures adds { IfOk result (Adds conditions.old conditions.new (IsSignalOf value)) }
    ensures tails { OnOk result (KeepsTails conditions.old conditions.new) }
{
    let name = Name::of(alloc, b"Signal.Signal")?;
    let mut arguments = Items::new(alloc);
    arguments.push(value)?;
    conditions.make(Shape::Named { name, arguments })
}
