//! Groups with the places of their members.
ghost use Rattle.std.specs.Prelude.{◌≡◌, ◌∷◌, [], ◌++◌, OnOk, IfOk, map};
ghost use Rattle.block_groups.specs.Placed as spec;

use elm_base::{At, Group, Name, NoMemory};
use module_groups::Component;
use name_steps::Defined;
use sqlite_items::{Items, at};
use std::alloc::Global;

/// Where the definition with this number stands.
pub fn place_of(definitions: &[Defined], number: usize) -> At
    ensures { result ≡ spec.place_of definitions.now number }
{
    match at(definitions, number) {
        None => At { line: 0, column: 0 },
        Some(defined) => defined.at,
    }
}

fn places_of(
    alloc: Global,
    definitions: &[Defined],
    members: &[usize],
) -> Result<Items<At>, NoMemory>
    ensures { IfOk result (λ places. places ≡ map (spec.place_of definitions.now) members.now) }
{
    let mut places = Items::new(alloc);
    for member in members {
        places.push(place_of(definitions, *member))?;
    }
    Ok(places)
}

fn push_group(
    alloc: Global,
    module: &Name,
    block: At,
    definitions: &[Defined],
    members: &[usize],
    out: &mut Items<Group>,
) -> Result<(), NoMemory>
    ensures { OnOk result (out.new ≡ out.old
        ++ spec.group_of «module».now block definitions.now members.now ∷ []) }
{
    let members = places_of(alloc, definitions, members)?;
    let module = module.copy(alloc)?;
    out.push(Group {
        module,
        block,
        members,
    })?;
    Ok(())
}

/// Appends these groups of a block.
pub fn push_groups(
    alloc: Global,
    module: &Name,
    block: At,
    definitions: &[Defined],
    groups: &[Component],
    out: &mut Items<Group>,
) -> Result<(), NoMemory>
    ensures { OnOk result (out.new ≡ out.old
        ++ map (λ group. spec.group_of «module».now block definitions.now group.members) groups.now) }
{
    for group in groups {
        push_group(
            alloc,
            module,
            block,
            definitions,
            group.members.as_slice(),
            out,
        )?;
    }
    Ok(())
}
