//! Written types with each alias in them written out.
ghost use Rattle.std.specs.Prelude.{◌≡◌, ◌++◌, ◌&&◌, OnOk, IfOk, length, option_copied};
ghost use Rattle.elm_base.specs.declared.tree.TypeTree.TheVariants as t;
ghost use Rattle.type_names.specs.Answers.{places_of, dotted as dotted_name};
ghost use Rattle.alias_expansion.specs.Parts as parts;
ghost use Rattle.alias_expansion.specs.Expansion as spec;

use crate::instances::{Arguments, instance_of};
use crate::parts::{arrow, boxed, copy_before, given, push_those, push_typed};
use crate::plain_alias::PlainAlias;
use crate::room::{Room, take_all};
use elm_base::{At, Name, NoMemory, Spot, TypeTree};
use sqlite_items::{Boxed, Items};
use std::alloc::Global;
use type_names::{KnownType, TypeAnswer, TypeScope, type_at};

fn is_called(module: &[u8], name: &[u8], alias: &PlainAlias) -> bool
    ensures { result ≡ spec.is_called «module».now name.now alias.now }
{
    alias.module.bytes() == module && alias.name.bytes() == name
}

/// The alias of this module and name, if it is among these.
pub fn alias_called<'a>(
    aliases: &'a [PlainAlias],
    module: &[u8],
    name: &[u8],
) -> Option<&'a PlainAlias>
    ensures { option_copied result ≡ spec.alias_called aliases.now «module».now name.now }
{
    let mut left = aliases;
    while let [alias, more @ ..] = left {
        if is_called(module, name, alias) {
            return Some(alias);
        }
        left = more;
    }
    None
}

/// Whether the alias of this module and name is among these.
pub fn is_listed(aliases: &[PlainAlias], module: &[u8], name: &[u8]) -> bool
    ensures { result ≡ spec.is_among (spec.alias_called aliases.now «module».now name.now) }
{
    match alias_called(aliases, module, name) {
        None => false,
        Some(_) => true,
    }
}

/// A name behind that of its module, and a point.
fn dotted(alloc: Global, found: &KnownType) -> Result<Name, NoMemory>
    ensures { IfOk result (λ made. made ≡ dotted_name found.now.«module» found.now.name) }
{
    let mut bytes = Vec::from_slice(alloc, found.module.bytes())?;
    bytes.extend_from_slice(b".")?;
    bytes.extend_from_slice(found.name.bytes())?;
    Ok(Name::from_vec(bytes))
}

/// A type that isn't an alias, of arguments of which all are there, or not.
fn qualified(
    alloc: Global,
    at: At,
    found: &KnownType,
    whole: bool,
    arguments: Items<TypeTree>,
) -> Result<Option<TypeTree>, NoMemory>
    ensures { IfOk result (λ tree. tree
        ≡ parts.given whole (t.Named at (dotted_name found.now.«module» found.now.name) arguments)) }
{
    let name = dotted(alloc, found)?;
    Ok(given(
        whole,
        TypeTree::Named {
            at,
            name,
            arguments,
        },
    ))
}

fn instance_in(
    alloc: Global,
    alias: &PlainAlias,
    arguments: &[Option<TypeTree>],
    room: &mut Room,
) -> Result<Option<TypeTree>, NoMemory>
    ensures { IfOk result (λ tree. tree ≡ spec.applied (Some alias.now) arguments.now) }
{
    let arguments = Arguments {
        parameters: alias.parameters.as_slice(),
        given: arguments,
    };
    match &alias.written {
        None => Ok(None),
        Some(written) => {
            take_all(written, room)?;
            instance_of(alloc, written, &arguments, room)
        }
    }
}

/// What the alias of this module and name stands for at these arguments.
fn applied(
    alloc: Global,
    aliases: &[PlainAlias],
    found: &KnownType,
    arguments: &[Option<TypeTree>],
    room: &mut Room,
) -> Result<Option<TypeTree>, NoMemory>
    ensures { IfOk result (λ tree. tree
        ≡ spec.applied (spec.alias_called aliases.now found.now.«module» found.now.name) arguments.now) }
{
    match alias_called(aliases, found.module.bytes(), found.name.bytes()) {
        None => Ok(None),
        Some(alias) => instance_in(alloc, alias, arguments, room),
    }
}

/// A type written in a module, with the aliases in it written out. There is none where something other than a record or a
/// variable comes to stand before a bar.
#[cycle(plain)]
pub fn plain(
    alloc: Global,
    tree: &TypeTree,
    aliases: &[PlainAlias],
    scope: &TypeScope<'_>,
    room: &mut Room,
) -> Result<Option<TypeTree>, NoMemory>
    ensures { IfOk result (λ found. found
        ≡ spec.plain aliases.now (places_of scope.now) tree.now) }
{
    match tree {
        TypeTree::Variable { at, name } => {
            let name = name.copy(alloc)?;
            Ok(Some(TypeTree::Variable { at: *at, name }))
        }
        TypeTree::Named {
            at,
            name,
            arguments,
        } => match type_at(alloc, scope, name.bytes())? {
            TypeAnswer::Stands { found } => {
                if found.alias {
                    let mut given = Items::new(alloc);
                    push_all(
                        alloc,
                        arguments.as_slice(),
                        aliases,
                        scope,
                        room,
                        &mut given,
                    )?;
                    applied(alloc, aliases, &found, given.as_slice(), room)
                } else {
                    let mut parts = Items::new(alloc);
                    let whole = push_parts(
                        alloc,
                        arguments.as_slice(),
                        aliases,
                        scope,
                        room,
                        &mut parts,
                    )?;
                    qualified(alloc, *at, &found, whole, parts)
                }
            }
            TypeAnswer::Unknown | TypeAnswer::Ambiguous => Ok(None),
        },
        TypeTree::Arrow { at, from, to } => {
            let from = boxed_plain(alloc, from, aliases, scope, room)?;
            let to = boxed_plain(alloc, to, aliases, scope, room)?;
            Ok(arrow(*at, from, to))
        }
        TypeTree::Unit { at } => Ok(Some(TypeTree::Unit { at: *at })),
        TypeTree::Tuple { at, parts } => {
            let mut found = Items::new(alloc);
            let whole = push_parts(alloc, parts.as_slice(), aliases, scope, room, &mut found)?;
            Ok(given(
                whole,
                TypeTree::Tuple {
                    at: *at,
                    parts: found,
                },
            ))
        }
        TypeTree::Brackets { inner, .. } => plain(alloc, inner.get(), aliases, scope, room),
        TypeTree::Fields { at, before, fields } => {
            let mut found = Items::new(alloc);
            let whole = push_fields(alloc, fields.as_slice(), aliases, scope, room, &mut found)?;
            let before = copy_before(alloc, before)?;
            Ok(given(
                whole,
                TypeTree::Fields {
                    at: *at,
                    before,
                    fields: found,
                },
            ))
        }
    }
}

#[cycle(plain)]
fn boxed_plain(
    alloc: Global,
    tree: &Boxed<TypeTree>,
    aliases: &[PlainAlias],
    scope: &TypeScope<'_>,
    room: &mut Room,
) -> Result<Option<Boxed<TypeTree>>, NoMemory>
    ensures { IfOk result (λ found. found
        ≡ spec.plain aliases.now (places_of scope.now) tree.now) }
{
    boxed(alloc, plain(alloc, tree.get(), aliases, scope, room)?)
}

/// Appends them, there or not.
#[cycle(plain)]
fn push_all(
    alloc: Global,
    trees: &[TypeTree],
    aliases: &[PlainAlias],
    scope: &TypeScope<'_>,
    room: &mut Room,
    out: &mut Items<Option<TypeTree>>,
) -> Result<(), NoMemory>
    ensures { OnOk result (out.new ≡ out.old
        ++ spec.plain_all aliases.now (places_of scope.now) trees.now) }
{
    for tree in trees {
        out.push(plain(alloc, tree, aliases, scope, room)?)?;
    }
    Ok(())
}

/// Appends those that are there, and answers whether all are.
#[cycle(plain)]
fn push_parts(
    alloc: Global,
    trees: &[TypeTree],
    aliases: &[PlainAlias],
    scope: &TypeScope<'_>,
    room: &mut Room,
    out: &mut Items<TypeTree>,
) -> Result<bool, NoMemory>
    ensures whole { IfOk result (λ whole. whole
        ≡ parts.all_there (spec.plain_all aliases.now (places_of scope.now) trees.now)) }
    ensures grown { OnOk result (out.new ≡ out.old
        ++ parts.found_among (spec.plain_all aliases.now (places_of scope.now) trees.now)) }
{
    let mut whole = true;
    for tree in trees {
        let there = push_those(plain(alloc, tree, aliases, scope, room)?, out)?;
        whole = whole && there;
    }
    Ok(whole)
}

/// Appends those fields whose types are there, and answers whether all are.
#[cycle(plain)]
fn push_fields(
    alloc: Global,
    fields: &[(Spot, TypeTree)],
    aliases: &[PlainAlias],
    scope: &TypeScope<'_>,
    room: &mut Room,
    out: &mut Items<(Spot, TypeTree)>,
) -> Result<bool, NoMemory>
    ensures whole { IfOk result (λ whole. whole
        ≡ parts.all_have_types (spec.plain_fields aliases.now (places_of scope.now) fields.now)) }
    ensures grown { OnOk result (out.new ≡ out.old
        ++ parts.typed_among (spec.plain_fields aliases.now (places_of scope.now) fields.now)) }
{
    let mut whole = true;
    for (label, tree) in fields {
        let label = label.copy(alloc)?;
        let there = push_typed(label, plain(alloc, tree, aliases, scope, room)?, out)?;
        whole = whole && there;
    }
    Ok(whole)
}

fn is_known(aliases: &[PlainAlias], answer: &TypeAnswer) -> bool
    ensures { result ≡ spec.is_known aliases.now answer.now }
{
    match answer {
        TypeAnswer::Stands { found } => {
            if found.alias {
                is_listed(aliases, found.module.bytes(), found.name.bytes())
            } else {
                true
            }
        }
        TypeAnswer::Unknown | TypeAnswer::Ambiguous => false,
    }
}

/// Whether each name in the type stands for one type, and each alias among them is one of these.
#[cycle(knowing)]
pub fn knows(
    alloc: Global,
    tree: &TypeTree,
    aliases: &[PlainAlias],
    scope: &TypeScope<'_>,
) -> Result<bool, NoMemory>
    ensures { IfOk result (λ known. known
        ≡ spec.knows aliases.now (places_of scope.now) tree.now) }
{
    match tree {
        TypeTree::Named {
            name,
            arguments,
            ..
        } => {
            let answer = type_at(alloc, scope, name.bytes())?;
            let known = is_known(aliases, &answer);
            let others = knows_all(alloc, arguments.as_slice(), aliases, scope)?;
            Ok(known && others)
        }
        TypeTree::Arrow { from, to, .. } => {
            let first = knows(alloc, from.get(), aliases, scope)?;
            let second = knows(alloc, to.get(), aliases, scope)?;
            Ok(first && second)
        }
        TypeTree::Tuple { parts, .. } => knows_all(alloc, parts.as_slice(), aliases, scope),
        TypeTree::Brackets { inner, .. } => knows(alloc, inner.get(), aliases, scope),
        TypeTree::Fields { fields, .. } => {
            knows_fields(alloc, fields.as_slice(), aliases, scope)
        }
        TypeTree::Variable { .. } | TypeTree::Unit { .. } => Ok(true),
    }
}

#[cycle(knowing)]
fn knows_all(
    alloc: Global,
    trees: &[TypeTree],
    aliases: &[PlainAlias],
    scope: &TypeScope<'_>,
) -> Result<bool, NoMemory>
    ensures { IfOk result (λ known. known
        ≡ spec.knows_all aliases.now (places_of scope.now) trees.now) }
{
    let mut known = true;
    for tree in trees {
        let one = knows(alloc, tree, aliases, scope)?;
        known = known && one;
    }
    Ok(known)
}

#[cycle(knowing)]
fn knows_fields(
    alloc: Global,
    fields: &[(Spot, TypeTree)],
    aliases: &[PlainAlias],
    scope: &TypeScope<'_>,
) -> Result<bool, NoMemory>
    ensures { IfOk result (λ known. known
        ≡ spec.knows_fields aliases.now (places_of scope.now) fields.now) }
{
    let mut known = true;
    for (_, tree) in fields {
        let one = knows(alloc, tree, aliases, scope)?;
        known = known && one;
    }
    Ok(known)
}
