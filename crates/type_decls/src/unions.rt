//! The unions of a module.
ghost use Rattle.std.specs.Prelude.{◌≡◌, ◌++◌, OnOk, IfOk, map};
ghost use Rattle.alias_expansion.specs.Parts.{those};
ghost use Rattle.type_names.specs.Answers.{places_of};
ghost use Rattle.decl_faults.specs.Sense.{by_table};
ghost use Rattle.type_decls.specs.Unions as spec;

use crate::basics::is_built_in;
use alias_expansion::{PlainAlias, Room, plain};
use elm_base::{Constructor, Declaration, Name, NoMemory, Spot, TypeTree, UnionOf};
use sqlite_items::Items;
use std::alloc::Global;
use type_names::TypeScope;

pub fn names_of(alloc: Global, spots: &[Spot]) -> Result<Items<Name>, NoMemory>
    ensures { IfOk result (λ names. names ≡ spec.names_of spots.now) }
{
    let mut names = Items::new(alloc);
    for spot in spots {
        names.push(spot.name.copy(alloc)?)?;
    }
    Ok(names)
}

fn copies_of(alloc: Global, names: &[Name]) -> Result<Items<Name>, NoMemory>
    ensures { IfOk result (λ copies. copies ≡ names.now) }
{
    let mut copies = Items::new(alloc);
    for name in names {
        copies.push(name.copy(alloc)?)?;
    }
    Ok(copies)
}

/// Appends the type, if it is there.
fn push_those(found: Option<TypeTree>, out: &mut Items<TypeTree>) -> Result<(), NoMemory>
    ensures { OnOk result (out.new ≡ out.old ++ those found) }
{
    if let Some(tree) = found {
        out.push(tree)?;
    }
    Ok(())
}

/// What these written types stand for.
fn types_of(
    alloc: Global,
    written: &[TypeTree],
    aliases: &[PlainAlias],
    scope: &TypeScope<'_>,
    room: &mut Room,
) -> Result<Items<TypeTree>, NoMemory>
    ensures { IfOk result (λ types. types
        ≡ spec.types_of (by_table aliases.now) (places_of scope.now) written.now) }
{
    let mut types = Items::new(alloc);
    for tree in written {
        push_those(plain(alloc, tree, aliases, scope, room)?, &mut types)?;
    }
    Ok(types)
}

fn constructors_of(
    alloc: Global,
    constructors: &[Constructor],
    aliases: &[PlainAlias],
    scope: &TypeScope<'_>,
    room: &mut Room,
) -> Result<Items<(Name, Items<TypeTree>)>, NoMemory>
    ensures { IfOk result (λ made. made
        ≡ map (spec.constructor_of (by_table aliases.now) (places_of scope.now)) constructors.now) }
{
    let mut made = Items::new(alloc);
    for constructor in constructors {
        let arguments = constructor.arguments.as_slice();
        let types = types_of(alloc, arguments, aliases, scope, room)?;
        let name = constructor.name.copy(alloc)?;
        made.push((name, types))?;
    }
    Ok(made)
}

fn union_of(
    alloc: Global,
    name: &Spot,
    parameters: &[Spot],
    constructors: &[Constructor],
    aliases: &[PlainAlias],
    scope: &TypeScope<'_>,
    room: &mut Room,
) -> Result<UnionOf, NoMemory>
    ensures { IfOk result (λ made. made ≡ spec.union_of (by_table aliases.now)
        (places_of scope.now) name.now parameters.now constructors.now) }
{
    let constructors = constructors_of(alloc, constructors, aliases, scope, room)?;
    let parameters = names_of(alloc, parameters)?;
    let module = scope.name.copy(alloc)?;
    let name = name.name.copy(alloc)?;
    Ok(UnionOf {
        module,
        name,
        parameters,
        constructors,
    })
}

fn opaque_of(
    alloc: Global,
    name: &Name,
    parameters: &[Name],
    scope: &TypeScope<'_>,
) -> Result<UnionOf, NoMemory>
    ensures { IfOk result (λ made. made
        ≡ spec.opaque_of (places_of scope.now) name.now parameters.now) }
{
    let module = scope.name.copy(alloc)?;
    let name = name.copy(alloc)?;
    let parameters = copies_of(alloc, parameters)?;
    Ok(UnionOf {
        module,
        name,
        parameters,
        constructors: Items::new(alloc),
    })
}

fn push_union(
    alloc: Global,
    declaration: &Declaration,
    aliases: &[PlainAlias],
    scope: &TypeScope<'_>,
    room: &mut Room,
    out: &mut Items<UnionOf>,
) -> Result<(), NoMemory>
    ensures { OnOk result (out.new ≡ out.old
        ++ spec.union_by (by_table aliases.now) (places_of scope.now) declaration.now) }
{
    match declaration {
        Declaration::Union {
            name,
            parameters,
            constructors,
            ..
        } => {
            if is_built_in(scope.name, &name.name) {
                return Ok(());
            }
            let parameters = parameters.as_slice();
            let constructors = constructors.as_slice();
            let made = union_of(alloc, name, parameters, constructors, aliases, scope, room)?;
            out.push(made)?;
            Ok(())
        }
        Declaration::Opaque {
            name,
            parameters,
            ..
        } => {
            out.push(opaque_of(alloc, name, parameters.as_slice(), scope)?)?;
            Ok(())
        }
        _ => Ok(()),
    }
}

/// Appends the unions that these declarations of a module are. A type without structure is one without constructors.
pub fn push_unions(
    alloc: Global,
    declarations: &[Declaration],
    aliases: &[PlainAlias],
    scope: &TypeScope<'_>,
    room: &mut Room,
    out: &mut Items<UnionOf>,
) -> Result<(), NoMemory>
    ensures { OnOk result (out.new ≡ out.old
        ++ spec.unions_in (by_table aliases.now) (places_of scope.now) declarations.now) }
{
    for declaration in declarations {
        push_union(alloc, declaration, aliases, scope, room, out)?;
    }
    Ok(())
}
