//! Whether a variable stands in a term.

ghost use Rattle.std.specs.Prelude.{◌≡◌, ◌<◌, Ok, true, false, length};
ghost use Rattle.type_terms.specs.Terms.{nodes_of, node_at, IsVariable, StandsIn};

use crate::parts::push_parts;
use crate::read::shape_at;
use elm_base::NoMemory;
use sqlite_items::Items;
use std::alloc::Global;
use type_terms::{Store, TermId};

/// Whether the variable stands in the term, which may be the variable itself.
pub fn stands_in(
    alloc: Global,
    store: &Store,
    variable: TermId,
    at: TermId,
) -> Result<bool, NoMemory>
    requires inside { at < length (nodes_of store.now) }
    requires variable { IsVariable (node_at (nodes_of store.now) variable) }
    ensures yes { result ≡ Ok true → StandsIn (nodes_of store.now) variable at }
    ensures no { result ≡ Ok false → StandsIn (nodes_of store.now) variable at → ⊥ }
{
    let mut waiting = Items::new(alloc);
    waiting.push(at)?;
    'terms: while let Some(term) = waiting.pop() {
        let end = store.find(term);
        if end == variable {
            return Ok(true);
        }
        push_parts(shape_at(store, end), &mut waiting)?;
    }
    Ok(false)
}
