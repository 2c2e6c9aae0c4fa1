//! What is found of a project's modules, one after the other.
ghost use Rattle.std.specs.Prelude.{◌≡◌, OnOk};
ghost use Rattle.module_names.specs.Named.{steps_of, uses_of};
ghost use Rattle.block_groups.specs.Turns.{Appends};
ghost use Rattle.module_scope.specs.Finding.{Added, CycleNoted, noted};
ghost use Rattle.module_scope.specs.Modules.{AreGroupsIn};

use crate::faults::first_fault;
use crate::meanings::push_meanings;
use block_groups::{Grouped, groups_in};
use elm_base::{Group, Halt, Meaning, Module, Name, NoMemory, ProjectFault};
use module_names::{Face, Flaw, Use, named_module};
use name_steps::Step;
use sqlite_items::Items;
use std::alloc::Global;

/// What is found of the modules so far.
#[derive(Drop)]
pub struct Found {
    pub meanings: Items<Meaning>,
    pub groups: Items<Group>,
    /// The first value in a cycle.
    pub cycle: Option<ProjectFault>,
}

/// Takes the first of a module's values in cycles, unless one was found in a module before it.
fn note(
    alloc: Global,
    module: &Name,
    cycles: &[Flaw],
    cycle: &mut Option<ProjectFault>,
) -> Result<(), NoMemory>
    ensures { OnOk result (cycle.new ≡ noted «module».now cycles.now cycle.old) }
{
    if cycle.is_none() {
        *cycle = first_fault(alloc, module, cycles)?;
    }
    Ok(())
}

/// Adds the groups of a module, by what happens to its names.
fn add_groups(
    alloc: Global,
    faces: &[Face],
    module: &Module,
    steps: &[Step],
    uses: &[Use],
    found: &mut Found,
) -> Result<(), NoMemory>
    requires steps { steps.now ≡ steps_of «module».now.declarations }
    requires uses { uses.now ≡ uses_of faces.now «module».now }
    ensures meanings { found.new.meanings ≡ found.old.meanings }
    ensures groups { OnOk result (Appends (AreGroupsIn faces.now «module».now)
        found.old.groups found.new.groups) }
    ensures cycle { OnOk result (CycleNoted faces.now «module».now found.old.cycle found.new.cycle) }
{
    let Grouped { groups, cycles } = groups_in(alloc, module, steps, uses)?;
    found.groups.append(groups)?;
    note(alloc, &module.name, cycles.as_slice(), &mut found.cycle)?;
    Ok(())
}

/// Adds a module, or gives the first fault of its names. `faces` says what the project's modules show.
pub fn add_module(
    alloc: Global,
    faces: &[Face],
    module: &Module,
    found: &mut Found,
) -> Result<(), Halt<ProjectFault>>
    ensures { Added faces.now «module».now found.old found.new result }
{
    let named = named_module(alloc, faces, module)?;
    if let Some(fault) = first_fault(alloc, &module.name, named.flaws.as_slice())? {
        return Err(Halt::Because(fault));
    }
    let steps = named.steps.as_slice();
    let uses = named.uses.as_slice();
    push_meanings(alloc, &module.name, uses, &mut found.meanings)?;
    add_groups(alloc, faces, module, steps, uses, found)?;
    Ok(())
}
