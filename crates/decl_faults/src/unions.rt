//! Whether the constructors of a union make sense.
ghost use Rattle.std.specs.Prelude.{◌≡◌, IfOk, map};
ghost use Rattle.std.specs.List.{list_all};
ghost use Rattle.elm_base.specs.declared.tree.TypeTree.TheVariants as t;
ghost use Rattle.alias_expansion.specs.Expansion.{knows as knows_in};
ghost use Rattle.type_names.specs.Answers.{places_of, dotted as dotted_name};
ghost use Rattle.decl_faults.specs.Sense as spec;
ghost use Rattle.decl_faults.specs.Sense.{by_table};
ghost use Rattle.decl_faults.specs.Deciding.{sensible};

use crate::sense::sense_of;
use alias_expansion::{PlainAlias, Room, knows, plain};
use elm_base::{At, Constructor, Name, NoMemory, Spot, TypeTree};
use sqlite_items::{Boxed, Items};
use std::alloc::Global;
use type_names::TypeScope;

/// A union of a module, where it is declared.
#[derive(Clone, Copy)]
pub struct UnionHead<'a> {
    pub name: &'a Spot,
    pub parameters: &'a [Spot],
}

fn dotted(alloc: Global, module: &Name, name: &Name) -> Result<Name, NoMemory>
    ensures { IfOk result (λ made. made ≡ dotted_name «module».now name.now) }
{
    let mut bytes = Vec::from_slice(alloc, module.bytes())?;
    bytes.extend_from_slice(b".")?;
    bytes.extend_from_slice(name.bytes())?;
    Ok(Name::from_vec(bytes))
}

fn variables(alloc: Global, parameters: &[Spot]) -> Result<Items<TypeTree>, NoMemory>
    ensures { IfOk result (λ made. made
        ≡ map (λ spot. t.Variable spot.at spot.name) parameters.now) }
{
    let mut made = Items::new(alloc);
    for spot in parameters {
        let name = spot.name.copy(alloc)?;
        made.push(TypeTree::Variable { at: spot.at, name })?;
    }
    Ok(made)
}

/// The union at its parameters.
fn union_type(
    alloc: Global,
    scope: &TypeScope<'_>,
    head: &UnionHead<'_>,
) -> Result<TypeTree, NoMemory>
    ensures { IfOk result (λ made. made
        ≡ spec.union_type (places_of scope.now) head.now.name.now head.now.parameters.now) }
{
    let name = dotted(alloc, scope.name, &head.name.name)?;
    let arguments = variables(alloc, head.parameters)?;
    Ok(TypeTree::Named {
        at: head.name.at,
        name,
        arguments,
    })
}

fn function_stands(alloc: Global, at: At, from: TypeTree, to: TypeTree) -> Result<bool, NoMemory>
    ensures { IfOk result (λ sense. sense ≡ sensible (t.Arrow at from to)) }
{
    let from = Boxed::new(alloc, from)?;
    let to = Boxed::new(alloc, to)?;
    sense_of(alloc, &TypeTree::Arrow { at, from, to })
}

/// Whether the function from an argument of a constructor to its union makes sense.
fn argument_stands(
    alloc: Global,
    argument: &TypeTree,
    at: At,
    head: &UnionHead<'_>,
    aliases: &[PlainAlias],
    scope: &TypeScope<'_>,
    room: &mut Room,
) -> Result<bool, NoMemory>
    ensures { IfOk result (λ stands. stands ≡ spec.argument_stands
        sensible (by_table aliases.now) (places_of scope.now)
        (spec.union_type (places_of scope.now) head.now.name.now head.now.parameters.now)
        at argument.now) }
{
    match plain(alloc, argument, aliases, scope, room)? {
        None => Ok(false),
        Some(from) => {
            let to = union_type(alloc, scope, head)?;
            function_stands(alloc, at, from, to)
        }
    }
}

fn arguments_stand(
    alloc: Global,
    arguments: &[TypeTree],
    at: At,
    head: &UnionHead<'_>,
    aliases: &[PlainAlias],
    scope: &TypeScope<'_>,
    room: &mut Room,
) -> Result<bool, NoMemory>
    ensures { IfOk result (λ stand. stand ≡ list_all (spec.argument_stands
        sensible (by_table aliases.now) (places_of scope.now)
        (spec.union_type (places_of scope.now) head.now.name.now head.now.parameters.now)
        at) arguments.now) }
{
    let mut stand = true;
    for argument in arguments {
        let one = argument_stands(alloc, argument, at, head, aliases, scope, room)?;
        stand = stand && one;
    }
    Ok(stand)
}

fn knows_all(
    alloc: Global,
    trees: &[TypeTree],
    aliases: &[PlainAlias],
    scope: &TypeScope<'_>,
) -> Result<bool, NoMemory>
    ensures { IfOk result (λ known. known
        ≡ list_all (knows_in aliases.now (places_of scope.now)) trees.now) }
{
    let mut known = true;
    for tree in trees {
        let one = knows(alloc, tree, aliases, scope)?;
        known = known && one;
    }
    Ok(known)
}

fn constructor_stands(
    alloc: Global,
    constructor: &Constructor,
    head: &UnionHead<'_>,
    aliases: &[PlainAlias],
    scope: &TypeScope<'_>,
    room: &mut Room,
) -> Result<bool, NoMemory>
    ensures { IfOk result (λ stands. stands ≡ spec.constructor_stands
        sensible (by_table aliases.now) (places_of scope.now)
        (spec.union_type (places_of scope.now) head.now.name.now head.now.parameters.now)
        constructor.now) }
{
    let arguments = constructor.arguments.as_slice();
    if !knows_all(alloc, arguments, aliases, scope)? {
        return Ok(true);
    }
    arguments_stand(alloc, arguments, constructor.at, head, aliases, scope, room)
}

/// Whether the function of each constructor, from its arguments to the union, makes sense.
pub fn constructors_stand(
    alloc: Global,
    constructors: &[Constructor],
    head: &UnionHead<'_>,
    aliases: &[PlainAlias],
    scope: &TypeScope<'_>,
    room: &mut Room,
) -> Result<bool, NoMemory>
    ensures { IfOk result (λ stand. stand ≡ spec.constructors_stand
        sensible (by_table aliases.now) (places_of scope.now)
        (spec.union_type (places_of scope.now) head.now.name.now head.now.parameters.now)
        constructors.now) }
{
    let mut stand = true;
    for constructor in constructors {
        let one = constructor_stands(alloc, constructor, head, aliases, scope, room)?;
        stand = stand && one;
    }
    Ok(stand)
}
