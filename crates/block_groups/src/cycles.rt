//! Values in cycles, as faults.
ghost use Rattle.std.specs.Prelude.{◌≡◌, ◌<◌, OnOk, IfOk, length};
ghost use Rattle.std.specs.List.{All};
ghost use Rattle.block_groups.specs.Cycles as spec;
ghost use Rattle.block_groups.specs.Growing.{IsFaultOf};
ghost use Rattle.block_groups.specs.Turns.{Appends, InTurn};

use crate::placed::place_of;
use elm_base::{FaultKind, Name, NoMemory};
use module_groups::Component;
use module_names::Flaw;
use name_steps::Defined;
use sqlite_items::{Items, at};
use std::alloc::Global;

fn functions_of(alloc: Global, definitions: &[Defined]) -> Result<Items<bool>, NoMemory>
    ensures { IfOk result (λ functions. functions ≡ spec.functions_of definitions.now) }
{
    let mut functions = Items::new(alloc);
    for defined in definitions {
        functions.push(defined.function)?;
    }
    Ok(functions)
}

fn name_of(alloc: Global, definitions: &[Defined], number: usize) -> Result<Name, NoMemory>
    ensures { IfOk result (λ name. name ≡ spec.name_of definitions.now number) }
{
    match at(definitions, number) {
        None => Ok(Name::from_vec(Vec::new(alloc))),
        Some(defined) => defined.name.copy(alloc),
    }
}

/// The fault of a cycle of which this definition is the first.
fn cycle_at(alloc: Global, definitions: &[Defined], number: usize) -> Result<Flaw, NoMemory>
    ensures { IfOk result (λ flaw. flaw ≡ spec.cycle_at definitions.now number) }
{
    let at = place_of(definitions, number);
    let name = name_of(alloc, definitions, number)?;
    let kind = FaultKind::CyclicValue;
    Ok(Flaw { at, kind, name })
}

fn first_of(members: &[usize]) -> usize
    ensures { result ≡ spec.first_of members.now }
{
    match members {
        [] => 0,
        [first, ..] => *first,
    }
}

/// Appends the fault of a group, if it is one.
fn push_cycle(
    alloc: Global,
    definitions: &[Defined],
    functions: &[bool],
    group: &Component,
    out: &mut Items<Flaw>,
) -> Result<(), NoMemory>
    requires same { functions.now ≡ spec.functions_of definitions.now }
    requires within { All (λ member. member < length functions.now) group.now.members }
    ensures { OnOk result (Appends (IsFaultOf definitions.now group.now) out.old out.new) }
{
    if group.is_cyclic_value(functions) {
        let first = first_of(group.members.as_slice());
        out.push(cycle_at(alloc, definitions, first)?)?;
    }
    Ok(())
}

/// Appends the faults of these groups of a block.
pub fn push_cycles(
    alloc: Global,
    definitions: &[Defined],
    groups: &[Component],
    out: &mut Items<Flaw>,
) -> Result<(), NoMemory>
    requires within { All (λ group. All (λ member. member < length definitions.now) group.members)
        groups.now }
    ensures { OnOk result (Appends (InTurn (IsFaultOf definitions.now) groups.now) out.old out.new) }
{
    let functions = functions_of(alloc, definitions)?;
    for group in groups {
        push_cycle(alloc, definitions, functions.as_slice(), group, out)?;
    }
    Ok(())
}
