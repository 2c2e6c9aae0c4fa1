//! The aliases of a project that can be written out.
ghost use Rattle.std.specs.Prelude.{◌≡◌, ◌++◌, OnOk, IfOk, map};
ghost use Rattle.type_names.specs.Answers.{places_in, places_of};
ghost use Rattle.alias_expansion.specs.Table as spec;

use crate::expansion::{is_listed, knows, plain};
use crate::plain_alias::PlainAlias;
use crate::room::Room;
use elm_base::{Declaration, Module, Name, NoMemory, Spot, TypeTree};
use module_names::defaults_for;
use sqlite_items::Items;
use std::alloc::Global;
use type_names::{KnownType, TypeScope, Variables, push_flaws};

/// Whether nothing is wrong at a place in the text of an alias.
fn is_clear(
    alloc: Global,
    scope: &TypeScope<'_>,
    parameters: &[Spot],
    written: &TypeTree,
) -> Result<bool, NoMemory>
    ensures { IfOk result (λ clear. clear
        ≡ spec.is_clear (places_of scope.now) parameters.now written.now) }
{
    let mut flaws = Items::new(alloc);
    push_flaws(
        alloc,
        scope,
        Variables::Parameters,
        parameters,
        written,
        &mut flaws,
    )?;
    match flaws.as_slice() {
        [] => Ok(true),
        [..] => Ok(false),
    }
}

/// Whether it can be written out by these aliases.
fn can_be(
    alloc: Global,
    aliases: &[PlainAlias],
    scope: &TypeScope<'_>,
    parameters: &[Spot],
    written: &TypeTree,
) -> Result<bool, NoMemory>
    ensures { IfOk result (λ can. can
        ≡ spec.can_be aliases.now (places_of scope.now) parameters.now written.now) }
{
    let clear = is_clear(alloc, scope, parameters, written)?;
    let known = knows(alloc, written, aliases, scope)?;
    Ok(clear && known)
}

fn names_of(alloc: Global, spots: &[Spot]) -> Result<Items<Name>, NoMemory>
    ensures { IfOk result (λ names. names ≡ map (λ spot. spot.name) spots.now) }
{
    let mut names = Items::new(alloc);
    for spot in spots {
        names.push(spot.name.copy(alloc)?)?;
    }
    Ok(names)
}

fn plain_alias(
    alloc: Global,
    aliases: &[PlainAlias],
    scope: &TypeScope<'_>,
    name: &Spot,
    parameters: &[Spot],
    written: &TypeTree,
    room: &mut Room,
) -> Result<PlainAlias, NoMemory>
    ensures { IfOk result (λ alias. alias ≡ spec.plain_alias
        aliases.now (places_of scope.now) name.now parameters.now written.now) }
{
    let module = scope.name.copy(alloc)?;
    let name = name.name.copy(alloc)?;
    let parameters = names_of(alloc, parameters)?;
    let written = plain(alloc, written, aliases, scope, room)?;
    Ok(PlainAlias {
        module,
        name,
        parameters,
        written,
    })
}

/// Adds an alias, where it isn't among these yet and can be written out by them.
fn add_alias(
    alloc: Global,
    scope: &TypeScope<'_>,
    name: &Spot,
    parameters: &[Spot],
    written: &TypeTree,
    room: &mut Room,
    out: &mut Items<PlainAlias>,
) -> Result<(), NoMemory>
    ensures { OnOk result (out.new ≡ out.old ++ spec.added_alias
        out.old (places_of scope.now) name.now parameters.now written.now) }
{
    if is_listed(out.as_slice(), scope.name.bytes(), name.name.bytes()) {
        return Ok(());
    }
    if can_be(alloc, out.as_slice(), scope, parameters, written)? {
        let aliases = out.as_slice();
        let alias = plain_alias(alloc, aliases, scope, name, parameters, written, room)?;
        out.push(alias)?;
    }
    Ok(())
}

fn add(
    alloc: Global,
    scope: &TypeScope<'_>,
    declaration: &Declaration,
    room: &mut Room,
    out: &mut Items<PlainAlias>,
) -> Result<(), NoMemory>
    ensures { OnOk result (out.new ≡ out.old
        ++ spec.added out.old (places_of scope.now) declaration.now) }
{
    match declaration {
        Declaration::Alias {
            name,
            parameters,
            written,
            ..
        } => add_alias(
            alloc,
            scope,
            name,
            parameters.as_slice(),
            written,
            room,
            out,
        ),
        _ => Ok(()),
    }
}

fn add_declared(
    alloc: Global,
    scope: &TypeScope<'_>,
    declarations: &[Declaration],
    room: &mut Room,
    out: &mut Items<PlainAlias>,
) -> Result<(), NoMemory>
    ensures { OnOk result (out.new ≡ spec.walked (places_of scope.now) out.old declarations.now) }
{
    let mut left = declarations;
    while let [declaration, more @ ..] = left {
        add(alloc, scope, declaration, room, out)?;
        left = more;
    }
    Ok(())
}

fn add_of(
    alloc: Global,
    types: &[KnownType],
    home: &Module,
    room: &mut Room,
    out: &mut Items<PlainAlias>,
) -> Result<(), NoMemory>
    ensures { OnOk result (out.new ≡ spec.walked
        (places_in types.now home.now) out.old home.now.declarations) }
{
    let defaults = defaults_for(alloc, home.name.bytes())?;
    let scope = TypeScope {
        types,
        name: &home.name,
        defaults: defaults.as_slice(),
        imports: home.imports.as_slice(),
    };
    add_declared(alloc, &scope, home.declarations.as_slice(), room, out)
}

/// One pass over all declarations.
fn add_all(
    alloc: Global,
    types: &[KnownType],
    modules: &[Module],
    room: &mut Room,
    out: &mut Items<PlainAlias>,
) -> Result<(), NoMemory>
    ensures { OnOk result (out.new ≡ spec.passed types.now out.old modules.now) }
{
    let mut left = modules;
    while let [home, more @ ..] = left {
        add_of(alloc, types, home, room, out)?;
        left = more;
    }
    Ok(())
}

/// The aliases of these modules that can be written out, where their project declares these types, each behind those that it
/// names. One with something wrong in its text, one that reaches itself, and one that names such a one can't be.
pub fn plain_aliases(
    alloc: Global,
    types: &[KnownType],
    modules: &[Module],
) -> Result<Items<PlainAlias>, NoMemory>
    ensures { IfOk result (λ aliases. spec.AreWrittenOut types.now modules.now aliases) }
{
    let mut room = Room::new();
    let mut aliases = Items::new(alloc);
    for _turn in 0..u64::MAX {
        let before = aliases.len();
        add_all(alloc, types, modules, &mut room, &mut aliases)?;
        if aliases.len() == before {
            return Ok(aliases);
        }
    }
    // Each turn added an alias: so many don't fit in memory.
    Err(NoMemory)
}
