//! The aliases of a module.
ghost use Rattle.std.specs.Prelude.{◌≡◌, ◌++◌, OnOk};
ghost use Rattle.type_names.specs.Answers.{places_of};
ghost use Rattle.decl_faults.specs.Sense.{by_table};
ghost use Rattle.type_decls.specs.Aliases as spec;

use crate::unions::names_of;
use alias_expansion::{PlainAlias, Room, plain};
use elm_base::{AliasOf, Declaration, NoMemory, Spot, TypeTree};
use sqlite_items::Items;
use std::alloc::Global;
use type_names::TypeScope;

/// Appends an alias whose text stands for this type, if it does for one.
fn push_alias_of(
    alloc: Global,
    name: &Spot,
    parameters: &[Spot],
    found: Option<TypeTree>,
    scope: &TypeScope<'_>,
    out: &mut Items<AliasOf>,
) -> Result<(), NoMemory>
    ensures { OnOk result (out.new ≡ out.old
        ++ spec.alias_of (places_of scope.now) name.now parameters.now found) }
{
    match found {
        None => Ok(()),
        Some(written) => {
            let module = scope.name.copy(alloc)?;
            let name = name.name.copy(alloc)?;
            let parameters = names_of(alloc, parameters)?;
            out.push(AliasOf {
                module,
                name,
                parameters,
                written,
            })?;
            Ok(())
        }
    }
}

fn push_alias(
    alloc: Global,
    declaration: &Declaration,
    aliases: &[PlainAlias],
    scope: &TypeScope<'_>,
    room: &mut Room,
    out: &mut Items<AliasOf>,
) -> Result<(), NoMemory>
    ensures { OnOk result (out.new ≡ out.old
        ++ spec.alias_by (by_table aliases.now) (places_of scope.now) declaration.now) }
{
    match declaration {
        Declaration::Alias {
            name,
            parameters,
            written,
            ..
        } => {
            let found = plain(alloc, written, aliases, scope, room)?;
            push_alias_of(alloc, name, parameters.as_slice(), found, scope, out)
        }
        _ => Ok(()),
    }
}

/// Appends the aliases that these declarations of a module are, each written out.
pub fn push_aliases(
    alloc: Global,
    declarations: &[Declaration],
    aliases: &[PlainAlias],
    scope: &TypeScope<'_>,
    room: &mut Room,
    out: &mut Items<AliasOf>,
) -> Result<(), NoMemory>
    ensures { OnOk result (out.new ≡ out.old
        ++ spec.aliases_in (by_table aliases.now) (places_of scope.now) declarations.now) }
{
    for declaration in declarations {
        push_alias(alloc, declaration, aliases, scope, room, out)?;
    }
    Ok(())
}
