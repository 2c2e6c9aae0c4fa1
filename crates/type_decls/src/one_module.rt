//! One module of a project.
ghost use Rattle.std.specs.Prelude.{◌≡◌, ◌++◌, OnOk};
ghost use Rattle.decl_faults.specs.Sense.{by_table};
ghost use Rattle.type_decls.specs.Unions as unions;
ghost use Rattle.type_decls.specs.Aliases as aliases;
ghost use Rattle.type_decls.specs.Ports as ports;

use crate::aliases::push_aliases;
use crate::ports::push_ports;
use crate::unions::push_unions;
use alias_expansion::{PlainAlias, Room};
use elm_base::{Decls, Module, NoMemory};
use module_names::defaults_for;
use std::alloc::Global;
use type_names::{KnownType, TypeScope};

/// Appends what a module declares, where its project declares these types and has these aliases.
pub fn push_declared(
    alloc: Global,
    types: &[KnownType],
    plains: &[PlainAlias],
    home: &Module,
    room: &mut Room,
    out: &mut Decls,
) -> Result<(), NoMemory>
    ensures unions { OnOk result (out.new.unions ≡ out.old.unions
        ++ unions.unions_of (by_table plains.now) types.now home.now) }
    ensures aliases { OnOk result (out.new.aliases ≡ out.old.aliases
        ++ aliases.aliases_of (by_table plains.now) types.now home.now) }
    ensures ports { OnOk result (out.new.ports ≡ out.old.ports
        ++ ports.ports_of (by_table plains.now) types.now home.now) }
{
    let defaults = defaults_for(alloc, home.name.bytes())?;
    let scope = TypeScope {
        types,
        name: &home.name,
        defaults: defaults.as_slice(),
        imports: home.imports.as_slice(),
    };
    let declarations = home.declarations.as_slice();
    push_unions(alloc, declarations, plains, &scope, room, &mut out.unions)?;
    push_aliases(alloc, declarations, plains, &scope, room, &mut out.aliases)?;
    push_ports(alloc, declarations, plains, &scope, room, &mut out.ports)
}
