//! What the name of a type stands for.
ghost use Rattle.std.specs.Prelude.{◌≡◌, ◌∷◌, [], ◌++◌, IfOk};
ghost use Rattle.type_names.specs.Answers as spec;

use crate::known::KnownType;
use crate::offers::{push_imported, push_own};
use crate::scope::TypeScope;
use elm_base::NoMemory;
use sqlite_items::Items;
use std::alloc::Global;

/// What the name of a type stands for.
#[derive(Drop)]
pub enum TypeAnswer {
    Stands { found: KnownType },
    /// No type that can be reached has the name.
    Unknown,
    /// Imports give types of different modules.
    Ambiguous,
}

fn are_of_one(module: &[u8], types: &[KnownType]) -> bool
    ensures { result ≡ spec.are_of_one «module».now types.now }
{
    for ty in types {
        if ty.module.bytes() != module {
            return false;
        }
    }
    true
}

fn settled_more(
    alloc: Global,
    first: &KnownType,
    more: &[KnownType],
) -> Result<TypeAnswer, NoMemory>
    ensures { IfOk result (λ answer. answer ≡ spec.settled (first.now ∷ more.now)) }
{
    if are_of_one(first.module.bytes(), more) {
        let found = first.copy(alloc)?;
        Ok(TypeAnswer::Stands { found })
    } else {
        Ok(TypeAnswer::Ambiguous)
    }
}

/// Types of one name are one type where they belong to one module.
fn settled(alloc: Global, types: &[KnownType]) -> Result<TypeAnswer, NoMemory>
    ensures { IfOk result (λ answer. answer ≡ spec.settled types.now) }
{
    match types {
        [] => Ok(TypeAnswer::Unknown),
        [first, more @ ..] => settled_more(alloc, first, more),
    }
}

fn imported(alloc: Global, scope: &TypeScope<'_>, name: &[u8]) -> Result<TypeAnswer, NoMemory>
    ensures { IfOk result (λ answer. answer ≡ spec.settled
        (spec.imported scope.now.types.now scope.now.defaults.now name.now
        ++ spec.imported scope.now.types.now scope.now.imports.now name.now)) }
{
    let mut given = Items::new(alloc);
    push_imported(alloc, scope.types, scope.defaults, name, &mut given)?;
    push_imported(alloc, scope.types, scope.imports, name, &mut given)?;
    settled(alloc, given.as_slice())
}

/// What the name of a type stands for: what the module declares hides what its imports give.
pub fn type_at(alloc: Global, scope: &TypeScope<'_>, name: &[u8]) -> Result<TypeAnswer, NoMemory>
    ensures { IfOk result (λ answer. answer ≡ spec.answer_of (spec.places_of scope.now) name.now) }
{
    let mut own = Items::new(alloc);
    push_own(alloc, scope.types, scope.name, name, &mut own)?;
    match own.as_slice() {
        [] => imported(alloc, scope, name),
        [first, ..] => {
            let found = first.copy(alloc)?;
            Ok(TypeAnswer::Stands { found })
        }
    }
}
