//! The natives of a project's modules.
ghost use Rattle.std.specs.Prelude.{◌≡◌, ◌++◌, OnOk};
ghost use Rattle.top_names.specs.Names as spec;

use core_names::{TopName, TopThing};
use elm_base::{Declaration, Module, Name, NoMemory};
use sqlite_items::Items;
use std::alloc::Global;

fn push_native(
    alloc: Global,
    home: &Name,
    declaration: &Declaration,
    out: &mut Items<TopName>,
) -> Result<(), NoMemory>
    ensures { OnOk result (out.new ≡ out.old ++ spec.native_of home.now declaration.now) }
{
    match declaration {
        Declaration::Native { name, number, .. } => {
            let module = home.copy(alloc)?;
            let name = name.copy(alloc)?;
            let thing = TopThing::Native { number: *number };
            out.push(TopName {
                module,
                name,
                thing,
            })?;
            Ok(())
        }
        _ => Ok(()),
    }
}

fn push_natives_of(alloc: Global, home: &Module, out: &mut Items<TopName>) -> Result<(), NoMemory>
    ensures { OnOk result (out.new ≡ out.old ++ spec.natives_of home.now) }
{
    let declarations = home.declarations.as_slice();
    for declaration in declarations {
        push_native(alloc, &home.name, declaration, out)?;
    }
    Ok(())
}

/// Appends the natives of these modules, with their numbers.
pub fn push_natives(
    alloc: Global,
    modules: &[Module],
    out: &mut Items<TopName>,
) -> Result<(), NoMemory>
    ensures { OnOk result (out.new ≡ out.old ++ spec.natives_in modules.now) }
{
    for home in modules {
        push_natives_of(alloc, home, out)?;
    }
    Ok(())
}
