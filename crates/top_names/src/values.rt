//! The top values of a project, in the order of their groups.
ghost use Rattle.std.specs.Prelude.{◌≡◌, ◌++◌, ◌∷◌, [], Some, OnOk, IfOk, length, map, option_copied};
ghost use Rattle.top_names.specs.Names as spec;

use core_names::{TopName, TopThing, same_place};
use elm_base::{At, Declaration, Group, Module, Name, NoMemory};
use sqlite_items::Items;
use std::alloc::Global;

fn where_placed<'a>(place: At, name: &'a Name, at: At) -> Option<&'a Name>
    ensures { option_copied result ≡ spec.where_placed at (Some (place, name.now)) }
{
    if same_place(place, at) {
        Some(name)
    } else {
        None
    }
}

/// The name that the declaration defines, where it stands at this place.
fn defined_at<'a>(declaration: &'a Declaration, at: At) -> Option<&'a Name>
    ensures { option_copied result ≡ spec.defined_at at declaration.now }
{
    match declaration {
        Declaration::Definition {
            at: place,
            name,
            ..
        } => where_placed(*place, name, at),
        Declaration::PortDefinition {
            at: place,
            name,
            ..
        } => where_placed(*place, &name.name, at),
        Declaration::PortAnnotation {
            at: place,
            name,
            ..
        } => where_placed(*place, &name.name, at),
        Declaration::Device {
            at: place,
            name,
            ..
        } => where_placed(*place, name, at),
        _ => None,
    }
}

fn name_at<'a>(declarations: &'a [Declaration], at: At) -> Option<&'a Name>
    ensures { option_copied result ≡ spec.name_at at declarations.now }
{
    let mut left = declarations;
    while let [declaration, more @ ..] = left {
        if let Some(name) = defined_at(declaration, at) {
            return Some(name);
        }
        left = more;
    }
    None
}

fn copy_or_nothing(alloc: Global, name: Option<&Name>) -> Result<Name, NoMemory>
    ensures { IfOk result (λ copied. copied ≡ spec.or_nothing (option_copied name.entry)) }
{
    match name {
        None => Name::of(alloc, b""),
        Some(name) => name.copy(alloc),
    }
}

/// The name of the definition at a place of the module of this name. It is empty where there is none.
pub fn name_in(alloc: Global, modules: &[Module], home: &Name, at: At) -> Result<Name, NoMemory>
    ensures { IfOk result (λ name. name ≡ spec.name_in modules.now home.now at) }
{
    let mut left = modules;
    while let [module, more @ ..] = left {
        if module.name.bytes() == home.bytes() {
            return copy_or_nothing(alloc, name_at(module.declarations.as_slice(), at));
        }
        left = more;
    }
    Name::of(alloc, b"")
}

/// Appends a value, whose number is its place. A number that doesn't fit is want of memory.
fn push_value(
    alloc: Global,
    modules: &[Module],
    home: &Name,
    at: At,
    out: &mut Items<TopName>,
) -> Result<(), NoMemory>
    ensures { OnOk result (out.new ≡ out.old
        ++ spec.value_of modules.now (length out.old) (home.now, at) ∷ []) }
{
    let place = out.len();
    if place > u32::MAX as usize {
        return Err(NoMemory);
    }
    let module = home.copy(alloc)?;
    let name = name_in(alloc, modules, home, at)?;
    let thing = TopThing::Value {
        number: place as u32,
    };
    out.push(TopName {
        module,
        name,
        thing,
    })?;
    Ok(())
}

/// Appends the values of a group.
fn push_members(
    alloc: Global,
    modules: &[Module],
    group: &Group,
    out: &mut Items<TopName>,
) -> Result<(), NoMemory>
    ensures { OnOk result (out.new ≡ out.old ++ spec.values_from modules.now (length out.old)
        (map (λ at. (group.now.«module», at)) group.now.members)) }
{
    let members = group.members.as_slice();
    for at in members {
        push_value(alloc, modules, &group.module, *at, out)?;
    }
    Ok(())
}

fn push_group(
    alloc: Global,
    modules: &[Module],
    group: &Group,
    out: &mut Items<TopName>,
) -> Result<(), NoMemory>
    ensures { OnOk result (out.new ≡ out.old
        ++ spec.values_from modules.now (length out.old) (spec.of_group group.now)) }
{
    if same_place(group.block, At { line: 0, column: 0 }) {
        push_members(alloc, modules, group, out)
    } else {
        Ok(())
    }
}

/// Appends the values of the groups that stand at the top level of their modules. The number of each is its place.
pub fn push_values(
    alloc: Global,
    modules: &[Module],
    groups: &[Group],
    out: &mut Items<TopName>,
) -> Result<(), NoMemory>
    ensures { OnOk result (out.new ≡ out.old
        ++ spec.values_from modules.now (length out.old) (spec.values_in groups.now)) }
{
    for group in groups {
        push_group(alloc, modules, group, out)?;
    }
    Ok(())
}
