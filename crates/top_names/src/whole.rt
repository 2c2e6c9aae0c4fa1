//! The names of a whole project.
ghost use Rattle.std.specs.Prelude.{◌≡◌, IfOk};
ghost use Rattle.top_names.specs.Names.{names_of};

use crate::natives::push_natives;
use crate::values::push_values;
use core_names::TopName;
use elm_base::{NoMemory, Resolved};
use sqlite_items::Items;
use std::alloc::Global;

/// The names at the top level of a project's modules, but for constructors and the makers of aliases: the top values in the
/// order of their groups, numbered from 0, then the natives with the numbers that the library gives them. Ports and devices are
/// top values, too.
pub fn top_names(alloc: Global, resolved: &Resolved) -> Result<Items<TopName>, NoMemory>
    ensures { IfOk result (λ names. names
        ≡ names_of resolved.now.project.modules resolved.now.groups) }
{
    let modules = resolved.project.modules.as_slice();
    let mut names = Items::new(alloc);
    push_values(alloc, modules, resolved.groups.as_slice(), &mut names)?;
    push_natives(alloc, modules, &mut names)?;
    Ok(names)
}
