//! The table of notes on sorts, closed.

ghost use Rattle.std.specs.Prelude.{◌≡◌, ◌<◌, length, slice_set, true, IfOk};
ghost use Rattle.bit_rows.specs.Table.{row_of};
ghost use Rattle.type_terms.specs.Depth.{AreNotesBelow, IsStored};
ghost use Rattle.type_terms.specs.Terms.{nodes_of};
ghost use Rattle.sort_closure.specs.Closure.{IsClosure};

use bit_rows::BitRows;
use elm_base::NoMemory;
use std::alloc::Global;
use type_terms::{Store, TermId};

/// A table over the terms: the bit of a row says that its term's sort is at most that of the bit's term, in each solution
/// of the store that meets these notes. Each note has the bit of the ends of its terms' links, and what follows from two
/// bits has its bit too.
pub fn closed(alloc: Global, store: &Store, notes: &[(TermId, TermId)]) -> Result<BitRows, NoMemory>
    requires { AreNotesBelow (length (nodes_of store.now)) notes.now }
    ensures { IfOk result (IsClosure (nodes_of store.now) notes.now) }
{
    let terms = store.terms();
    let mut table = BitRows::new(alloc, terms, terms)?;
    for (below, above) in notes {
        table.set(store.find(*below) as usize, store.find(*above) as usize);
    }
    table.close();
    Ok(table)
}
