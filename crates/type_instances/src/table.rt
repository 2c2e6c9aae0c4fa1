//! The terms of variables.
ghost use Rattle.std.specs.Prelude.{◌≡◌, IfOk, OnOk};
ghost use Rattle.typing_rules.specs.WrittenTypes.{Allows, begins as begins_with, flag_of};
ghost use Rattle.type_conditions.specs.Judging.{Adds, IsWell, KeepsTails};
ghost use Rattle.type_instances.specs.Building.{Chooses};
ghost use Rattle.type_instances.specs.Choosing as choosing;
ghost use Rattle.type_instances.specs.Choosing.{AddsVariable};
ghost use Rattle.type_instances.specs.Tables as spec;
ghost use Rattle.type_instances.specs.Tables.{EachVariable, IsUsed, Serves};

use crate::uses::Use;
use elm_base::{Name, NoMemory};
use sqlite_items::Items;
use std::alloc::Global;
use type_conditions::{Conditions, Tail};
use type_terms::{Flag, Shape, TermId};

/// A variable of a written type: the term for the type that it stands for, and where it stands before a bar the tail of
/// that term, which is a row then.
#[derive(Drop)]
pub struct Variable {
    pub name: Name,
    pub at: TermId,
    pub tail: Tail,
}

/// Whether a variable of the name is among these.
fn is_known(table: &[Variable], name: &[u8]) -> bool
    ensures { result ≡ choosing.is_known table.now name.now }
{
    let mut left = table;
    while let [variable, more @ ..] = left {
        if variable.name.bytes() == name {
            return true;
        }
        left = more;
    }
    false
}

/// The term of the first variable of the name.
pub fn term_of(table: &[Variable], name: &[u8]) -> TermId
    ensures { result ≡ spec.term_of table.now name.now }
{
    let mut left = table;
    while let [variable, more @ ..] = left {
        if variable.name.bytes() == name {
            return variable.at;
        }
        left = more;
    }
    0
}

/// The tail of the first variable of the name.
pub fn tail_of(table: &[Variable], name: &[u8]) -> Tail
    ensures { result ≡ spec.tail_of table.now name.now }
{
    let mut left = table;
    while let [variable, more @ ..] = left {
        if variable.name.bytes() == name {
            return variable.tail;
        }
        left = more;
    }
    Tail::Closed
}

/// Whether some use of the name stands before a bar.
fn is_before(uses: &[Use], name: &[u8]) -> bool
    ensures { result ≡ choosing.is_before uses.now name.now }
{
    let mut left = uses;
    while let [used, more @ ..] = left {
        if used.before && used.name.bytes() == name {
            return true;
        }
        left = more;
    }
    false
}

/// Whether the name begins with these letters.
fn begins(letters: &[u8], name: &[u8]) -> bool
    ensures { result ≡ begins_with letters.now name.now }
{
    let mut left = letters;
    let mut rest = name;
    while let [letter, more @ ..] = left {
        match rest {
            [] => return false,
            [first, others @ ..] => {
                if *letter != *first {
                    return false;
                }
                left = more;
                rest = others;
            }
        }
    }
    true
}

/// What the first letters of a variable's name restrict it to.
fn flag_named(name: &[u8]) -> Flag
    ensures { result ≡ flag_of name.now }
{
    if begins(b"compappend", name) {
        return Flag::Both;
    }
    if begins(b"comparable", name) {
        return Flag::Comparable;
    }
    if begins(b"appendable", name) {
        return Flag::Appendable;
    }
    Flag::Plain
}

/// A new term for any type that a variable of this name may stand for.
fn new_type(alloc: Global, conditions: &mut Conditions, name: &[u8]) -> Result<TermId, NoMemory>
    ensures adds { IfOk result (Adds conditions.old conditions.new
        (λ chosen s type. IsWell chosen type × Allows name.now type)) }
    ensures tails { OnOk result (KeepsTails conditions.old conditions.new) }
{
    if begins(b"number", name) {
        let name = Name::of(alloc, b"Basics.Int")?;
        return conditions.make(Shape::Named {
            name,
            arguments: Items::new(alloc),
        });
    }
    conditions.variable(flag_named(name))
}

/// Adds a variable of this name, with a tail where it stands before a bar.
fn add_variable(
    alloc: Global,
    conditions: &mut Conditions,
    name: &Name,
    before: bool,
    table: &mut Items<Variable>,
) -> Result<(), NoMemory>
    ensures { OnOk result
        (AddsVariable conditions.old conditions.new name.now before table.old table.new) }
{
    let name = name.copy(alloc)?;
    if before {
        let tail = conditions.make_rest(alloc)?;
        let at = conditions.make_row(Items::new(alloc), tail)?;
        table.push(Variable { name, at, tail })?;
    } else {
        let at = new_type(alloc, conditions, name.bytes())?;
        let tail = Tail::Closed;
        table.push(Variable { name, at, tail })?;
    }
    Ok(())
}

/// A variable for each name among the uses.
pub fn choose(
    alloc: Global,
    uses: &[Use],
    conditions: &mut Conditions,
) -> Result<Items<Variable>, NoMemory>
    ensures chooses { IfOk result (Chooses conditions.old conditions.new) }
    ensures serves { IfOk result (λ table. Serves table uses.now) }
    ensures used { IfOk result (EachVariable (IsUsed uses.now)) }
{
    let mut table = Items::new(alloc);
    for used in uses {
        if !is_known(table.as_slice(), used.name.bytes()) {
            let before = is_before(uses, used.name.bytes());
            add_variable(alloc, conditions, &used.name, before, &mut table)?;
        }
    }
    Ok(table)
}
