//! All blocks of a module.
ghost use Rattle.std.specs.Prelude.{◌∷◌, [], ◌↔◌, OnOk, IfOk};
ghost use Rattle.std.specs.List.{Contains};
ghost use Rattle.module_names.specs.declared.flaws.Flaw.{Flaw};
ghost use Rattle.block_groups.specs.Blocks as spec;
ghost use Rattle.block_groups.specs.Cycles.{IsCycleIn};
ghost use Rattle.block_groups.specs.Growing.{Grows};
ghost use Rattle.block_groups.specs.Placed.{AreGroupsOfAll};

use crate::cycles::push_cycles;
use crate::placed::push_groups;
use crate::tops::top_definitions;
use elm_base::{At, Group, Module, Name, NoMemory};
use module_blocks::references;
use module_groups::groups;
use module_names::{Flaw, Use};
use name_steps::{Defined, Step};
use sqlite_items::Items;
use std::alloc::Global;

/// The groups of a module's definitions.
#[derive(Drop)]
pub struct Grouped {
    /// Those of the top level, then those of each `let`, in order of place. Within a block a group stands behind those
    /// to which it refers.
    pub groups: Items<Group>,
    /// The faults of values in cycles, block by block.
    pub cycles: Items<Flaw>,
}

/// Appends what is found of the block that stands here, whose last definition ends at `end`.
fn push_block(
    alloc: Global,
    module: &Name,
    uses: &[Use],
    at: At,
    definitions: &[Defined],
    end: At,
    found: &mut Grouped,
) -> Result<(), NoMemory>
    ensures { OnOk result (Grows «module».now uses.now (spec.block_of at definitions.now end ∷ [])
        found.old found.new) }
{
    let table = references(alloc, module, uses, definitions, end)?;
    let own = groups(alloc, table)?;
    let own = own.as_slice();
    push_groups(alloc, module, at, definitions, own, &mut found.groups)?;
    push_cycles(alloc, definitions, own, &mut found.cycles)?;
    Ok(())
}

/// Appends what is found of a `let`. Other steps have no block.
fn push_inner(
    alloc: Global,
    module: &Name,
    uses: &[Use],
    step: &Step,
    found: &mut Grouped,
) -> Result<(), NoMemory>
    ensures { OnOk result (Grows «module».now uses.now (spec.inner step.now) found.old found.new) }
{
    match step {
        Step::Block {
            at,
            definitions,
            end,
        } => push_block(
            alloc,
            module,
            uses,
            *at,
            definitions.as_slice(),
            *end,
            found,
        ),
        _ => Ok(()),
    }
}

fn push_all_inner(
    alloc: Global,
    module: &Name,
    uses: &[Use],
    steps: &[Step],
    found: &mut Grouped,
) -> Result<(), NoMemory>
    ensures { OnOk result (Grows «module».now uses.now (spec.inner_blocks steps.now)
        found.old found.new) }
{
    for step in steps {
        push_inner(alloc, module, uses, step, found)?;
    }
    Ok(())
}

fn push_outer(
    alloc: Global,
    module: &Module,
    uses: &[Use],
    found: &mut Grouped,
) -> Result<(), NoMemory>
    ensures { OnOk result (Grows «module».now.name uses.now
        (spec.top_block «module».now.declarations ∷ []) found.old found.new) }
{
    let definitions = top_definitions(alloc, module.declarations.as_slice())?;
    let at = At { line: 0, column: 0 };
    let end = At {
        line: u32::MAX,
        column: u32::MAX,
    };
    push_block(
        alloc,
        &module.name,
        uses,
        at,
        definitions.as_slice(),
        end,
        found,
    )
}

/// The groups of a module's top level and of each `let` in it, and its values in cycles, by what happens to names in the
/// module and what each use stands for.
pub fn groups_in(
    alloc: Global,
    module: &Module,
    steps: &[Step],
    uses: &[Use],
) -> Result<Grouped, NoMemory>
    ensures groups { IfOk result (λ found. AreGroupsOfAll «module».now.name uses.now
        (spec.blocks_of «module».now.declarations steps.now) found.groups) }
    ensures cycles { IfOk result (λ found. (flaw : Flaw) → Contains found.cycles flaw
        ↔ IsCycleIn «module».now.name uses.now
        (spec.blocks_of «module».now.declarations steps.now) flaw) }
{
    let mut found = Grouped {
        groups: Items::new(alloc),
        cycles: Items::new(alloc),
    };
    push_outer(alloc, module, uses, &mut found)?;
    push_all_inner(alloc, &module.name, uses, steps, &mut found)?;
    Ok(found)
}
