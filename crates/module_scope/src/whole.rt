//! All modules of a project.
ghost use Rattle.std.specs.Prelude.{◌≡◌, IfOk, IfErr};
ghost use Rattle.elm_base.specs.declared.fault.ProjectFault.{ProjectFault};
ghost use Rattle.elm_base.specs.declared.memory.Halt.TheVariants as halt;
ghost use Rattle.module_scope.specs.Faults.{IsFault};
ghost use Rattle.module_scope.specs.Finding.{FindsAll};
ghost use Rattle.module_scope.specs.Modules.{faces_of as faces_in};
ghost use Rattle.module_scope.specs.Resolving.{IsResolved};

use crate::found::{Found, add_module};
use elm_base::{Halt, Module, NoMemory, Project, ProjectFault, Resolved};
use module_names::{Face, face_of};
use sqlite_items::Items;
use std::alloc::Global;

fn faces_of(alloc: Global, modules: &[Module]) -> Result<Items<Face>, NoMemory>
    ensures { IfOk result (λ faces. faces ≡ faces_in modules.now) }
{
    let mut faces = Items::new(alloc);
    for next in modules {
        faces.push(face_of(alloc, next)?)?;
    }
    Ok(faces)
}

fn find_all(alloc: Global, modules: &[Module]) -> Result<Found, Halt<ProjectFault>>
    ensures { FindsAll modules.now result }
{
    let faces = faces_of(alloc, modules)?;
    let mut found = Found {
        meanings: Items::new(alloc),
        groups: Items::new(alloc),
        cycle: None,
    };
    for next in modules {
        add_module(alloc, faces.as_slice(), next, &mut found)?;
    }
    Ok(found)
}

/// The project with what each of its names stands for and with its definitions in groups, or its first fault: of its
/// names (Duplicate, UnknownName, Ambiguous, NotExposed), and only then a value in a cycle (CyclicValue).
pub fn resolve(alloc: Global, project: Project) -> Result<Resolved, Halt<ProjectFault>>
    ensures resolved { IfOk result (λ resolved. IsResolved project resolved) }
    ensures refused { IfErr result (λ cause. (fault : ProjectFault) → cause ≡ halt.Because fault
        → IsFault project.modules fault) }
{
    let Found {
        meanings,
        groups,
        cycle,
    } = find_all(alloc, project.modules.as_slice())?;
    match cycle {
        Some(fault) => Err(Halt::Because(fault)),
        None => Ok(Resolved {
            project,
            groups,
            meanings,
        }),
    }
}
