//! The notes that types of a store ask for.

ghost use Rattle.std.specs.Prelude.{◌<◌, length, IfOk};
ghost use Rattle.type_terms.specs.Depth.{AreNotesBelow, IsBelow};
ghost use Rattle.type_terms.specs.Terms.{nodes_of, Each};
ghost use Rattle.well_sorted.specs.Asking.{Tells};

use crate::parts::{note_parts, push_all, push_parts};
use elm_base::NoMemory;
use sqlite_items::Items;
use std::alloc::Global;
use type_terms::{Store, TermId};

/// Notes which say that the types of these terms are well sorted, where the type of the term `simple` is simple: that of
/// each function's argument is at most its result's, and the parts of all other types are simple. A term that stands in
/// several places is read as often as it stands there.
pub fn sort_notes(
    alloc: Global,
    store: &Store,
    simple: TermId,
    terms: &[TermId],
) -> Result<Items<(TermId, TermId)>, NoMemory>
    requires known { simple < length (nodes_of store.now) }
    requires inside { Each (IsBelow (length (nodes_of store.now))) terms.now }
    ensures tells { IfOk result (Tells (nodes_of store.now) simple terms.now) }
    ensures below { IfOk result (AreNotesBelow (length (nodes_of store.now))) }
{
    store.stays_sound();
    let mut waiting = Items::new(alloc);
    push_all(terms, &mut waiting)?;
    let mut notes = Items::new(alloc);
    'terms: while let Some(term) = waiting.pop() {
        let shape = store.shape(term);
        note_parts(shape, simple, &mut notes)?;
        push_parts(shape, &mut waiting)?;
    }
    Ok(notes)
}
