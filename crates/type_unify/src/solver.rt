//! Two terms are made equal.

ghost use Rattle.std.specs.Prelude.{◌≡◌, OnOk, OnErr};
ghost use Rattle.type_unify.specs.Refused.{OnRefusal};
ghost use Rattle.type_unify.specs.Grown.{IsGrown};
ghost use Rattle.type_unify.specs.Rests.{RestsApart, IsType};
ghost use Rattle.type_unify.specs.Unifying.{Unifies};
ghost use Rattle.type_terms.specs.Solutions.{Never};
ghost use Rattle.type_terms.specs.Terms.{nodes_of};

use crate::pair::Pair;
use crate::step::{Step, descend};
use crate::take::take;
use elm_base::Halt;
use sqlite_items::Items;
use std::alloc::Global;
use type_terms::{NoSolution, Store, TermId};

/// Makes two terms equal, and may leave changes behind where it refuses.
fn solve(alloc: Global, store: &mut Store, a: TermId, b: TermId) -> Result<(), Halt<NoSolution>>
    requires first { IsType (nodes_of store.old) a }
    requires second { IsType (nodes_of store.old) b }
    requires apart { RestsApart (nodes_of store.old) }
    ensures grown { IsGrown store.old store.new }
    ensures unified { OnOk result (Unifies (nodes_of store.old) (nodes_of store.new) a b) }
    ensures refused { OnRefusal result (Never (nodes_of store.old) (λ s. s a ≡ s b)) }
{
    let mut waiting = Items::new(alloc);
    waiting.push(Pair {
        first: a,
        second: b,
    })?;
    'steps: loop {
        match descend(alloc, store, &mut waiting)? {
            Step::Done => {
                // So the store has a solution.
                store.stays_sound();
                return Ok(());
            }
            step => match take(alloc, store, step) {
                Ok(()) => {}
                Err(halt) => return Err(halt),
            },
        }
    }
}

/// Makes two terms equal. Afterwards the store has, on the terms that stood before, exactly the solutions in which
/// both are equal, and it has one. It is refused exactly where there is none, and the store is then as before.
///
/// The rest of a row has to be a row, or a variable or opaque type without flag that stands only as a rest; neither
/// `a` nor `b` is such a variable or opaque type. Both stay so.
pub fn unify(alloc: Global, store: &mut Store, a: TermId, b: TermId) -> Result<(), Halt<NoSolution>>
    requires first { IsType (nodes_of store.old) a }
    requires second { IsType (nodes_of store.old) b }
    requires apart { RestsApart (nodes_of store.old) }
    ensures unified { OnOk result (Unifies (nodes_of store.old) (nodes_of store.new) a b) }
    ensures grown { IsGrown store.old store.new }
    ensures refused { OnRefusal result (Never (nodes_of store.old) (λ s. s a ≡ s b)) }
    ensures unchanged { OnErr result (store.new ≡ store.old) }
{
    let mark = store.mark();
    match solve(alloc, store, a, b) {
        Ok(()) => Ok(()),
        Err(halt) => {
            store.undo(mark);
            Err(halt)
        }
    }
}
