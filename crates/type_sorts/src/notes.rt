ghost use Rattle.std.specs.Prelude.{◌≡◌, ◌≢◌, ℕ, IfOk, IfErr, OnOk};
ghost use Rattle.elm_base.specs.declared.memory.Halt.TheVariants as halt;
ghost use Rattle.elm_typing.specs.Sorts.{Sort};
ghost use Rattle.type_sorts.specs.Sorts.{Meets};
ghost use Rattle.type_sorts.specs.Vertices.{AreEdges, AreRests};
ghost use Rattle.type_terms.specs.Solutions.{Assignment, IsSolvable, Solves};
ghost use Rattle.type_terms.specs.Terms.{nodes_of, notes_of};

use crate::edge::Edge;
use crate::reach::reaches_simple;
use crate::rests::rests;
use crate::vertex::vertex;
use elm_base::{Halt, NoMemory};
use sqlite_items::Items;
use std::alloc::Global;
use type_terms::{NoSolution, Store};

// The notes as edges between vertices.
fn edges(alloc: Global, store: &Store, rests: &[bool]) -> Result<Items<Edge>, NoMemory>
    requires { AreRests (nodes_of store.now) rests.now }
    ensures { IfOk result (λ edges. AreEdges (nodes_of store.now) (notes_of store.now) edges) }
{
    let mut edges = Items::new(alloc);
    for (below, above) in store.notes() {
        edges.push(Edge {
            below: vertex(store, rests, *below),
            above: vertex(store, rests, *above),
        })?;
    }
    Ok(edges)
}

/// Whether some solution of the store, with some choice of the sorts of its opaque types without flag, meets all its
/// notes. Refused exactly where none does. The store has a solution.
pub fn sorts(alloc: Global, store: &Store) -> Result<(), Halt<NoSolution>>
    requires solvable { IsSolvable (nodes_of store.now) }
    ensures met { OnOk result ((s : Assignment) × (chosen : ℕ → Sort)
        × Solves (nodes_of store.now) s × Meets s chosen (notes_of store.now)) }
    ensures refused { IfErr result (λ cause. cause ≢ halt.NoMemory → (s : Assignment) (chosen : ℕ → Sort)
        → Solves (nodes_of store.now) s → Meets s chosen (notes_of store.now) → ⊥) }
{
    let rests = rests(alloc, store)?;
    let edges = edges(alloc, store, rests.as_slice())?;
    if reaches_simple(alloc, edges)? {
        return Err(Halt::Because(NoSolution));
    }
    Ok(())
}
