//! The library goes through the phases of a compilation that stand so far.
use crate::same;
use elm_base::Project;
use elm_library::{LIBRARY, read};
use module_parser::fix;
use module_scope::resolve;
use std::test::Fail;
use type_faults::text_fault;

#[test]
fn levels_names_and_types_have_no_fault(rt: HostRuntime) -> Result<(), Fail> {
    let alloc = rt.alloc();
    let modules = read(alloc, &LIBRARY)?;
    let fixed = fix(alloc, Project { modules })?;
    let resolved = resolve(alloc, fixed)?;
    let fault = text_fault(alloc, resolved.project.modules.as_slice())?;
    same(&rt, fault.is_none(), true, "types");
    Ok(())
}
