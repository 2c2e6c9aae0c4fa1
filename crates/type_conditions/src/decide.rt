//! Whether conditions are satisfied by any types.

ghost use Rattle.std.specs.Prelude.{◌≡◌, ◌++◌, List, ℕ, OnOk, Ok, true, false, length};
ghost use Rattle.type_terms.specs.Terms.{State, nodes_of, notes_of, Each};
ghost use Rattle.type_terms.specs.Depth.{AreNotesBelow};
ghost use Rattle.type_unify.specs.Rests.{IsType};
ghost use Rattle.type_conditions.specs.Conditions.{IsSatisfiable};
ghost use Rattle.type_conditions.specs.Deciding.{Noted};

use elm_base::{Halt, NoMemory};
use sqlite_items::Items;
use std::alloc::Global;
use type_sorts::sorts;
use type_terms::{Shape, TermId};
use type_unify::Types;
use well_sorted::sort_notes;

// Adds the notes behind the others.
fn note_all(types: &mut Types, notes: &[(TermId, TermId)]) -> Result<(), NoMemory>
    requires { AreNotesBelow (length (nodes_of types.old)) notes.now }
    ensures grown { (changes : List State) × (types.new ≡ changes ++ types.old) }
    ensures noted { OnOk result (Noted types.old types.new notes.now) }
{
    for (below, above) in notes {
        types.sort_below(*below, *above)?;
    }
    Ok(())
}

/// Whether types satisfy what the store asks, of which those of these terms are well sorted. It leaves notes behind.
pub fn are_satisfiable(
    alloc: Global,
    types: &mut Types,
    proper: &[TermId],
) -> Result<bool, NoMemory>
    requires { Each (IsType (nodes_of types.old)) proper.now }
    ensures grown { (changes : List State) × (types.new ≡ changes ++ types.old) }
    ensures yes { result ≡ Ok true
        → IsSatisfiable (record { states = types.old; proper = proper.now }) }
    ensures no { result ≡ Ok false
        → IsSatisfiable (record { states = types.old; proper = proper.now }) → ⊥ }
{
    // What the store keeps is wanted before the term and behind it.
    let _notes = types.store().notes();
    types.store().stays_sound();
    let simple = types.make_type(Shape::Tuple {
        parts: Items::new(alloc),
    })?;
    types.store().stays_sound();
    let notes = sort_notes(alloc, types.store(), simple, proper)?;
    note_all(types, notes.as_slice())?;
    match sorts(alloc, types.store()) {
        Ok(()) => Ok(true),
        Err(Halt::Because(_)) => Ok(false),
        Err(Halt::NoMemory) => Err(NoMemory),
    }
}
