//! The first of a module's faults, as one of its project.
ghost use Rattle.std.specs.Prelude.{◌≡◌, IfOk};
ghost use Rattle.module_scope.specs.Faults as spec;
ghost use Rattle.module_scope.specs.Finding.{first_in};
ghost use Rattle.module_scope.specs.Firsts.{least as least_of};

use elm_base::{Name, NoMemory, ProjectFault};
use module_blocks::comes_before;
use module_names::Flaw;
use std::alloc::Global;

fn fault_of(alloc: Global, module: &Name, flaw: &Flaw) -> Result<ProjectFault, NoMemory>
    ensures { IfOk result (λ fault. fault ≡ spec.fault_of «module».now flaw.now) }
{
    let module = module.copy(alloc)?;
    let name = flaw.name.copy(alloc)?;
    Ok(ProjectFault {
        module,
        line: flaw.at.line,
        kind: flaw.kind,
        name,
    })
}

/// Of faults the one that stands first, and of those at one place the one that is listed first.
fn least<'a>(first: &'a Flaw, more: &'a [Flaw]) -> &'a Flaw
    ensures { result.now ≡ least_of first.now more.now }
{
    let mut found = first;
    for other in more {
        if comes_before(other.at, found.at) {
            found = other;
        }
    }
    found
}

/// The first of these faults in a module, if there are any.
pub fn first_fault(
    alloc: Global,
    module: &Name,
    flaws: &[Flaw],
) -> Result<Option<ProjectFault>, NoMemory>
    ensures { IfOk result (λ found. found ≡ first_in «module».now flaws.now) }
{
    match flaws {
        [] => Ok(None),
        [first, more @ ..] => {
            let flaw = least(first, more);
            let fault = fault_of(alloc, module, flaw)?;
            Ok(Some(fault))
        }
    }
}
