//! The definitions of a whole project.
ghost use Rattle.std.specs.Prelude.{◌≡◌, IfOk, map};
ghost use Rattle.core_definitions.specs.Definitions.{AreGroups, made_of};

use crate::inputs::inputs_in;
use crate::one::CoreDefinition;
use crate::pass::{Whole, groups_from};
use alias_expansion::{Room, plain_aliases};
use elm_base::{Decls, NoMemory, Resolved};
use sqlite_items::Items;
use std::alloc::Global;
use top_names::top_names;
use type_names::known_types;

/// The definitions of a project in their plain form, group by group, with the unions of these declarations. Ports and devices are
/// among them: an outbound port is its definition, an inbound one and a device are inputs.
pub fn definitions(
    alloc: Global,
    resolved: &Resolved,
    decls: &Decls,
) -> Result<Items<Items<CoreDefinition>>, NoMemory>
    ensures { IfOk result (λ groups. AreGroups resolved.now decls.now
        (map (map made_of) groups)) }
{
    let modules = resolved.project.modules.as_slice();
    let types = known_types(alloc, modules)?;
    let aliases = plain_aliases(alloc, types.as_slice(), modules)?;
    let tops = top_names(alloc, resolved)?;
    let inputs = inputs_in(alloc, modules)?;
    let whole = Whole {
        modules,
        meanings: resolved.meanings.as_slice(),
        groups: resolved.groups.as_slice(),
        unions: decls.unions.as_slice(),
        types: types.as_slice(),
        aliases: aliases.as_slice(),
        tops: tops.as_slice(),
        inputs: inputs.as_slice(),
    };
    let mut room = Room::new();
    groups_from(alloc, &whole, &mut room)
}
