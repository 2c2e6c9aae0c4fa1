//! The terms of a store, read at the ends of links.

ghost use Rattle.std.specs.Prelude.{◌<◌, length};
ghost use Rattle.type_unify.specs.Steps.{IsShapeAt};
ghost use Rattle.type_terms.specs.Terms.{nodes_of, node_at, IsLink};

use type_terms::{Shape, Store, TermId};

/// The shape of a term that isn't linked.
pub fn shape_at(store: &Store, at: TermId) -> &Shape
    requires inside { at < length (nodes_of store.now) }
    requires end { IsLink (node_at (nodes_of store.now) at) → ⊥ }
    ensures { IsShapeAt store.now at result.now }
{
    store.shape(at)
}
