//! All definitions, in the order of their groups.
ghost use Rattle.std.specs.Prelude.{◌≡◌, ◌++◌, ◌+◌, ◌∷◌, Some, [], IfOk, length, map, take, drop};
ghost use Rattle.core_names.specs.Tables.{naming, tables_of};
ghost use Rattle.core_definitions.specs.Definitions as spec;

use crate::finding::{declared_at, module_named};
use crate::inputs::{Place, input_at};
use crate::one::{CoreDefinition, RightSide, annotation_in, right_side};
use alias_expansion::{PlainAlias, Room};
use core_names::{Names, TopName, same_place};
use core_parts::nothing;
use elm_base::{At, Declaration, Group, Meaning, Module, Name, NoMemory, UnionOf};
use module_names::defaults_for;
use sqlite_items::Items;
use std::alloc::Global;
use top_names::name_in;
use type_names::{KnownType, TypeScope};

/// A project with its names resolved, its types, and the tables that its definitions share.
#[derive(Clone, Copy)]
pub struct Whole<'a> {
    pub modules: &'a [Module],
    pub meanings: &'a [Meaning],
    pub groups: &'a [Group],
    pub unions: &'a [UnionOf],
    pub types: &'a [KnownType],
    pub aliases: &'a [PlainAlias],
    /// The names of all modules at their top levels.
    pub tops: &'a [TopName],
    /// The places of all inputs.
    pub inputs: &'a [Place],
}

/// What no resolved project has.
fn nothing_defined(alloc: Global) -> Result<RightSide, NoMemory>
    ensures { IfOk result (λ made. spec.right_of made ≡ spec.nothing_defined) }
{
    let body = nothing(alloc)?;
    Ok(RightSide {
        annotation: None,
        body,
    })
}

/// What this declaration of the module defines, by the names of the module.
fn defined_by(
    alloc: Global,
    names: &Names<'_>,
    home: &Module,
    declaration: &Declaration,
    input: u32,
    room: &mut Room,
) -> Result<RightSide, NoMemory>
    ensures { IfOk result (λ made. spec.right_of made
        ≡ spec.defined_by (naming (tables_of names.now)) home.now input declaration.now) }
{
    let declarations = home.declarations.as_slice();
    let annotation = annotation_in(alloc, names, declarations, declaration, room)?;
    let body = right_side(alloc, names, input, declaration, room)?;
    Ok(RightSide { annotation, body })
}

/// What this declaration of the module defines.
fn defined_where(
    alloc: Global,
    whole: &Whole<'_>,
    home: &Module,
    declaration: &Declaration,
    input: u32,
    room: &mut Room,
) -> Result<RightSide, NoMemory>
    ensures { IfOk result (λ made. spec.right_of made
        ≡ spec.defined_by (naming (spec.tables_in (spec.whole_of whole.now) home.now)) home.now
        input declaration.now) }
{
    let defaults = defaults_for(alloc, home.name.bytes())?;
    let names = Names {
        module: home.name.bytes(),
        meanings: whole.meanings,
        groups: whole.groups,
        tops: whole.tops,
        unions: whole.unions,
        aliases: whole.aliases,
        scope: TypeScope {
            types: whole.types,
            name: &home.name,
            defaults: defaults.as_slice(),
            imports: home.imports.as_slice(),
        },
    };
    defined_by(alloc, &names, home, declaration, input, room)
}

fn defined_in(
    alloc: Global,
    whole: &Whole<'_>,
    home: &Module,
    at: At,
    room: &mut Room,
) -> Result<RightSide, NoMemory>
    ensures { IfOk result (λ made. spec.right_of made
        ≡ spec.defined_in (spec.whole_of whole.now) at (Some home.now)) }
{
    match declared_at(home.declarations.as_slice(), at) {
        None => nothing_defined(alloc),
        Some(declaration) => {
            let input = input_at(home.name.bytes(), at, whole.inputs)?;
            defined_where(alloc, whole, home, declaration, input, room)
        }
    }
}

fn defined_at(
    alloc: Global,
    whole: &Whole<'_>,
    home: &[u8],
    at: At,
    room: &mut Room,
) -> Result<RightSide, NoMemory>
    ensures { IfOk result (λ made. spec.right_of made
        ≡ spec.defined_at (spec.whole_of whole.now) home.now at) }
{
    match module_named(whole.modules, home) {
        None => nothing_defined(alloc),
        Some(home) => defined_in(alloc, whole, home, at, room),
    }
}

/// The definition at a place of this module.
fn placed_at(
    alloc: Global,
    whole: &Whole<'_>,
    home: &Name,
    at: At,
    top: u32,
    room: &mut Room,
) -> Result<CoreDefinition, NoMemory>
    ensures { IfOk result (λ made. spec.made_of made
        ≡ spec.placed_at (spec.whole_of whole.now) home.now top at) }
{
    let module = home.copy(alloc)?;
    let name = name_in(alloc, whole.modules, home, at)?;
    let right = defined_at(alloc, whole, home.bytes(), at, room)?;
    Ok(CoreDefinition {
        module,
        at,
        name,
        top,
        right,
    })
}

/// A number that doesn't fit is want of memory.
fn small(number: usize) -> Result<u32, NoMemory>
    ensures { IfOk result (λ found. found ≡ number) }
{
    if number > u32::MAX as usize {
        return Err(NoMemory);
    }
    Ok(number as u32)
}

/// A sum that doesn't fit is want of memory.
fn behind(number: u32, count: usize) -> Result<u32, NoMemory>
    ensures { IfOk result (λ sum. sum ≡ number + count) }
{
    number.checked_add(small(count)?).ok_or(NoMemory)
}

/// The definitions of a group, numbered from `top` on.
fn group_from(
    alloc: Global,
    whole: &Whole<'_>,
    group: &Group,
    top: u32,
    room: &mut Room,
) -> Result<Items<CoreDefinition>, NoMemory>
    ensures { IfOk result (λ made. map spec.made_of made
        ≡ spec.definitions_from (spec.whole_of whole.now) group.now.«module» top
        group.now.members) }
{
    let mut made = Items::new(alloc);
    let mut number = top;
    let mut left = group.members.as_slice();
    while let [at, more @ ..] = left {
        made.push(placed_at(alloc, whole, &group.module, *at, number, room)?)?;
        number = behind(number, 1)?;
        left = more;
    }
    Ok(made)
}

/// The groups of the top level, in order. Their definitions have numbers through all of them.
pub fn groups_from(
    alloc: Global,
    whole: &Whole<'_>,
    room: &mut Room,
) -> Result<Items<Items<CoreDefinition>>, NoMemory>
    ensures { IfOk result (λ made. map (map spec.made_of) made
        ≡ spec.groups_of (spec.whole_of whole.now)) }
{
    let mut made = Items::new(alloc);
    let mut top: u32 = 0;
    let mut left = whole.groups;
    while let [group, more @ ..] = left {
        if same_place(group.block, At { line: 0, column: 0 }) {
            made.push(group_from(alloc, whole, group, top, room)?)?;
            top = behind(top, group.members.len())?;
        }
        left = more;
    }
    Ok(made)
}
