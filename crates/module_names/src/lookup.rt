//! What a name stands for.
ghost use Rattle.std.specs.Prelude.{◌≡◌, ◌∷◌, [], ◌++◌, IfOk};
ghost use Rattle.std.specs.List.{list_all};
ghost use Rattle.module_names.specs.Lookup as spec;

use crate::face::Face;
use crate::found::Answer;
use crate::imported::{push_given, push_opened, push_reached};
use crate::split::{base_of, is_qualified, qualifier_of};
use elm_base::{At, Exposing, Import, Name, NoMemory, Spot, Thing};
use module_tops::Top;
use sqlite_items::Items;
use std::alloc::Global;

/// Where a module's names are looked up.
#[derive(Clone, Copy)]
pub struct Scope<'a> {
    /// What all modules show.
    pub faces: &'a [Face],
    /// The module's name.
    pub name: &'a Name,
    /// What it defines.
    pub own: &'a [Top],
    /// The imports with which each module begins.
    pub defaults: &'a [Import],
    /// Its own imports.
    pub imports: &'a [Import],
}

fn is_same(thing: &Thing, other: &Thing) -> bool
    ensures { result ≡ spec.is_same thing.now other.now }
{
    match (thing, other) {
        (
            Thing::Top { module, name },
            Thing::Top {
                module: module2,
                name: name2,
            },
        ) => module.bytes() == module2.bytes() && name.bytes() == name2.bytes(),
        (
            Thing::Constructor { module, name },
            Thing::Constructor {
                module: module2,
                name: name2,
            },
        ) => module.bytes() == module2.bytes() && name.bytes() == name2.bytes(),
        (
            Thing::Maker { module, name },
            Thing::Maker {
                module: module2,
                name: name2,
            },
        ) => module.bytes() == module2.bytes() && name.bytes() == name2.bytes(),
        _ => false,
    }
}

fn copy_thing(alloc: Global, thing: &Thing) -> Result<Thing, NoMemory>
    ensures { IfOk result (λ copied. copied ≡ thing.now) }
{
    match thing {
        Thing::Local { binder } => Ok(Thing::Local { binder: *binder }),
        Thing::Top { module, name } => {
            let module = module.copy(alloc)?;
            let name = name.copy(alloc)?;
            Ok(Thing::Top { module, name })
        }
        Thing::Constructor { module, name } => {
            let module = module.copy(alloc)?;
            let name = name.copy(alloc)?;
            Ok(Thing::Constructor { module, name })
        }
        Thing::Maker { module, name } => {
            let module = module.copy(alloc)?;
            let name = name.copy(alloc)?;
            Ok(Thing::Maker { module, name })
        }
    }
}

fn are_same(first: &Thing, more: &[Thing]) -> bool
    ensures { result ≡ list_all (λ other. spec.is_same first.now other) more.now }
{
    for other in more {
        if !is_same(first, other) {
            return false;
        }
    }
    true
}

fn stands(alloc: Global, thing: &Thing) -> Result<Answer, NoMemory>
    ensures { IfOk result (λ answer. answer ≡ spec.stands thing.now) }
{
    let thing = copy_thing(alloc, thing)?;
    Ok(Answer::Stands { thing })
}

/// What several imports give for one name.
fn settled(alloc: Global, things: &[Thing]) -> Result<Answer, NoMemory>
    ensures { IfOk result (λ answer. answer ≡ spec.settled things.now) }
{
    match things {
        [] => Ok(Answer::Unknown),
        [first, more @ ..] => settled_more(alloc, first, more),
    }
}

fn settled_more(alloc: Global, first: &Thing, more: &[Thing]) -> Result<Answer, NoMemory>
    ensures { IfOk result (λ answer. answer ≡ spec.settled (first.now ∷ more.now)) }
{
    if are_same(first, more) {
        stands(alloc, first)
    } else {
        Ok(Answer::Ambiguous)
    }
}

/// Where the name is bound last.
fn bound_at(locals: &[Spot], name: &[u8]) -> Option<At>
    ensures { result ≡ spec.bound_at locals.now name.now }
{
    let mut found = None;
    for spot in locals {
        if spot.name.bytes() == name {
            found = Some(spot.at);
        }
    }
    found
}

fn qualified(
    alloc: Global,
    scope: &Scope<'_>,
    qualifier: &[u8],
    name: &[u8],
) -> Result<Answer, NoMemory>
    ensures { IfOk result (λ answer. answer ≡ spec.qualified (spec.scope_of scope.now) qualifier.now name.now) }
{
    let mut things = Items::new(alloc);
    push_reached(
        alloc,
        scope.faces,
        scope.defaults,
        qualifier,
        name,
        &mut things,
    )?;
    push_reached(
        alloc,
        scope.faces,
        scope.imports,
        qualifier,
        name,
        &mut things,
    )?;
    settled(alloc, things.as_slice())
}

fn imported(alloc: Global, scope: &Scope<'_>, name: &[u8]) -> Result<Answer, NoMemory>
    ensures { IfOk result (λ answer. answer ≡ spec.imported (spec.scope_of scope.now) name.now) }
{
    let mut things = Items::new(alloc);
    push_opened(alloc, scope.faces, scope.defaults, name, &mut things)?;
    push_opened(alloc, scope.faces, scope.imports, name, &mut things)?;
    settled(alloc, things.as_slice())
}

fn own_or_imported(alloc: Global, scope: &Scope<'_>, name: &[u8]) -> Result<Answer, NoMemory>
    ensures { IfOk result (λ answer. answer ≡ spec.own_or (spec.own_of (spec.scope_of scope.now) name.now)
        (spec.imported (spec.scope_of scope.now) name.now)) }
{
    let picks = Exposing::All;
    let mut things = Items::new(alloc);
    push_given(alloc, scope.name, scope.own, &picks, name, &mut things)?;
    match things.as_slice() {
        [] => imported(alloc, scope, name),
        [first, ..] => stands(alloc, first),
    }
}

/// What a name stands for.
pub fn name_at(
    alloc: Global,
    scope: &Scope<'_>,
    locals: &[Spot],
    name: &[u8],
) -> Result<Answer, NoMemory>
    ensures { IfOk result (λ answer. answer ≡ spec.answer_of (spec.scope_of scope.now) locals.now name.now) }
{
    if is_qualified(name) {
        return qualified(alloc, scope, qualifier_of(name), base_of(name));
    }
    match bound_at(locals, name) {
        Some(binder) => Ok(Answer::Stands {
            thing: Thing::Local { binder },
        }),
        None => own_or_imported(alloc, scope, name),
    }
}
