//! Whether types make sense.
ghost use Rattle.std.specs.Prelude.{◌≡◌, IfOk};
ghost use Rattle.type_sense.specs.Parameters.{with_parameters};
ghost use Rattle.type_names.specs.Answers.{places_of};
ghost use Rattle.decl_faults.specs.Sense as spec;
ghost use Rattle.decl_faults.specs.Sense.{by_table};
ghost use Rattle.decl_faults.specs.Deciding.{sensible};

use alias_expansion::{PlainAlias, Room, knows, plain};
use elm_base::{NoMemory, TypeTree};
use std::alloc::Global;
use type_names::TypeScope;
use type_sense::{alias_makes_sense, makes_sense};

/// Whether a type without aliases makes sense.
pub fn sense_of(alloc: Global, tree: &TypeTree) -> Result<bool, NoMemory>
    ensures { IfOk result (λ sense. sense ≡ sensible tree.now) }
{
    makes_sense(alloc, tree)
}

fn sense_of_alias(alloc: Global, tree: &TypeTree) -> Result<bool, NoMemory>
    ensures { IfOk result (λ sense. sense ≡ sensible (with_parameters tree.now)) }
{
    alias_makes_sense(alloc, tree)
}

fn is_sensible(alloc: Global, found: &Option<TypeTree>) -> Result<bool, NoMemory>
    ensures { IfOk result (λ sense. sense ≡ spec.is_sensible sensible found.now) }
{
    match found {
        None => Ok(false),
        Some(tree) => sense_of(alloc, tree),
    }
}

fn is_sensible_alias(alloc: Global, found: &Option<TypeTree>) -> Result<bool, NoMemory>
    ensures { IfOk result (λ sense. sense ≡ spec.is_sensible (spec.of_alias sensible) found.now) }
{
    match found {
        None => Ok(false),
        Some(tree) => sense_of_alias(alloc, tree),
    }
}

/// Whether a written type makes sense. One that names an alias which can't be written out isn't judged.
pub fn stands(
    alloc: Global,
    written: &TypeTree,
    aliases: &[PlainAlias],
    scope: &TypeScope<'_>,
    room: &mut Room,
) -> Result<bool, NoMemory>
    ensures { IfOk result (λ stands. stands
        ≡ spec.stands sensible (by_table aliases.now) (places_of scope.now) written.now) }
{
    if !knows(alloc, written, aliases, scope)? {
        return Ok(true);
    }
    let found = plain(alloc, written, aliases, scope, room)?;
    is_sensible(alloc, &found)
}

/// The same of the text of an alias, whose variables are its parameters.
pub fn alias_stands(
    alloc: Global,
    written: &TypeTree,
    aliases: &[PlainAlias],
    scope: &TypeScope<'_>,
    room: &mut Room,
) -> Result<bool, NoMemory>
    ensures { IfOk result (λ stands. stands ≡ spec.stands
        (spec.of_alias sensible) (by_table aliases.now) (places_of scope.now) written.now) }
{
    if !knows(alloc, written, aliases, scope)? {
        return Ok(true);
    }
    let found = plain(alloc, written, aliases, scope, room)?;
    is_sensible_alias(alloc, &found)
}
