//! The aliases of a project, and the types that their texts name.
ghost use Rattle.std.specs.Prelude.{◌≡◌, ◌++◌, OnOk, IfOk};
ghost use Rattle.type_names.specs.Answers.{places_in, places_of};
ghost use Rattle.alias_cycles.specs.Naming as spec;

use crate::texts::AliasText;
use elm_base::{Declaration, Module, Name, NoMemory, Spot, TypeTree};
use module_names::defaults_for;
use sqlite_items::Items;
use std::alloc::Global;
use type_names::{KnownType, TypeAnswer, TypeScope, type_at};

/// Appends the one type that a name stands for, where it stands for one.
fn push_found(answer: TypeAnswer, out: &mut Items<KnownType>) -> Result<(), NoMemory>
    ensures { OnOk result (out.new ≡ out.old ++ spec.found_by answer) }
{
    match answer {
        TypeAnswer::Stands { found } => {
            out.push(found)?;
            Ok(())
        }
        TypeAnswer::Unknown | TypeAnswer::Ambiguous => Ok(()),
    }
}

/// Appends the types that a written type names, from left to right.
#[cycle(names)]
fn push_names(
    alloc: Global,
    scope: &TypeScope<'_>,
    tree: &TypeTree,
    out: &mut Items<KnownType>,
) -> Result<(), NoMemory>
    ensures { OnOk result (out.new ≡ out.old ++ spec.names_in (places_of scope.now) tree.now) }
{
    match tree {
        TypeTree::Named {
            name,
            arguments,
            ..
        } => {
            push_found(type_at(alloc, scope, name.bytes())?, out)?;
            push_all_names(alloc, scope, arguments.as_slice(), out)
        }
        TypeTree::Arrow { from, to, .. } => {
            push_names(alloc, scope, from.get(), out)?;
            push_names(alloc, scope, to.get(), out)
        }
        TypeTree::Tuple { parts, .. } => push_all_names(alloc, scope, parts.as_slice(), out),
        TypeTree::Brackets { inner, .. } => push_names(alloc, scope, inner.get(), out),
        TypeTree::Fields { fields, .. } => push_of_fields(alloc, scope, fields.as_slice(), out),
        TypeTree::Variable { .. } | TypeTree::Unit { .. } => Ok(()),
    }
}

#[cycle(names)]
fn push_all_names(
    alloc: Global,
    scope: &TypeScope<'_>,
    trees: &[TypeTree],
    out: &mut Items<KnownType>,
) -> Result<(), NoMemory>
    ensures { OnOk result (out.new ≡ out.old
        ++ spec.names_in_all (places_of scope.now) trees.now) }
{
    for tree in trees {
        push_names(alloc, scope, tree, out)?;
    }
    Ok(())
}

#[cycle(names)]
fn push_of_fields(
    alloc: Global,
    scope: &TypeScope<'_>,
    fields: &[(Spot, TypeTree)],
    out: &mut Items<KnownType>,
) -> Result<(), NoMemory>
    ensures { OnOk result (out.new ≡ out.old
        ++ spec.names_in_fields (places_of scope.now) fields.now) }
{
    for (_, tree) in fields {
        push_names(alloc, scope, tree, out)?;
    }
    Ok(())
}

fn push_text(
    alloc: Global,
    scope: &TypeScope<'_>,
    name: &Name,
    written: &TypeTree,
    out: &mut Items<AliasText>,
) -> Result<(), NoMemory>
    ensures { OnOk result (out.new ≡ out.old
        ++ spec.text_of (places_of scope.now) name.now written.now) }
{
    let mut names = Items::new(alloc);
    push_names(alloc, scope, written, &mut names)?;
    let module = scope.name.copy(alloc)?;
    let name = name.copy(alloc)?;
    out.push(AliasText {
        module,
        name,
        names,
    })?;
    Ok(())
}

fn push_alias(
    alloc: Global,
    scope: &TypeScope<'_>,
    declaration: &Declaration,
    out: &mut Items<AliasText>,
) -> Result<(), NoMemory>
    ensures { OnOk result (out.new ≡ out.old
        ++ spec.alias_of (places_of scope.now) declaration.now) }
{
    match declaration {
        Declaration::Alias { name, written, .. } => {
            push_text(alloc, scope, &name.name, written, out)
        }
        _ => Ok(()),
    }
}

fn push_declared(
    alloc: Global,
    scope: &TypeScope<'_>,
    declarations: &[Declaration],
    out: &mut Items<AliasText>,
) -> Result<(), NoMemory>
    ensures { OnOk result (out.new ≡ out.old
        ++ spec.declared (places_of scope.now) declarations.now) }
{
    for declaration in declarations {
        push_alias(alloc, scope, declaration, out)?;
    }
    Ok(())
}

fn push_aliases(
    alloc: Global,
    types: &[KnownType],
    home: &Module,
    out: &mut Items<AliasText>,
) -> Result<(), NoMemory>
    ensures { OnOk result (out.new ≡ out.old ++ spec.aliases_of types.now home.now) }
{
    let defaults = defaults_for(alloc, home.name.bytes())?;
    let scope = TypeScope {
        types,
        name: &home.name,
        defaults: defaults.as_slice(),
        imports: home.imports.as_slice(),
    };
    push_declared(alloc, &scope, home.declarations.as_slice(), out)
}

/// The aliases of these modules, whose project declares these types, in their order.
pub fn aliases(
    alloc: Global,
    types: &[KnownType],
    modules: &[Module],
) -> Result<Items<AliasText>, NoMemory>
    ensures { IfOk result (λ found. found ≡ spec.aliases_in types.now modules.now) }
{
    let mut found = Items::new(alloc);
    for home in modules {
        push_aliases(alloc, types, home, &mut found)?;
    }
    Ok(found)
}
