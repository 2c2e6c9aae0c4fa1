//! A variable is bound to a term.

ghost use Rattle.std.specs.Prelude.{◌≡◌, ◌≢◌, ◌⊎◌, ◌<◌, OnOk, length};
ghost use Rattle.type_unify.specs.Refused.{OnRefusal};
ghost use Rattle.type_unify.specs.Bound.{IsBound};
ghost use Rattle.type_unify.specs.Grown.{IsGrown};
ghost use Rattle.type_unify.specs.Rests.{RestsApart, IsNoRest, IsType};
ghost use Rattle.type_unify.specs.Steps.{IsRow};
ghost use Rattle.type_terms.specs.declared.node.Node.TheVariants.{End};
ghost use Rattle.type_terms.specs.declared.shape.Shape.TheVariants as shape;
ghost use Rattle.type_terms.specs.Solutions.{Always, Never};
ghost use Rattle.type_terms.specs.Terms.{nodes_of, node_at, IsVariable, IsLink, StandsIn};

use crate::flags::narrow_all;
use crate::occurs::stands_in;
use crate::read::shape_at;
use elm_base::Halt;
use std::alloc::Global;
use type_terms::{Flag, NoSolution, Shape, Store, TermId};

/// The flag of an unlinked variable.
fn flag_of(store: &Store, at: TermId) -> Flag
    requires inside { at < length (nodes_of store.now) }
    requires variable { IsVariable (node_at (nodes_of store.now) at) }
    ensures { node_at (nodes_of store.now) at ≡ End (shape.Variable result) }
{
    match shape_at(store, at) {
        Shape::Variable { flag } => *flag,
        _ => Flag::Plain,
    }
}

/// The variable stands for the other term, which has to have its flag. Where the variable stands in the term, the
/// two are never equal. A variable that is the rest of a row is bound to a row only.
pub fn bind(
    alloc: Global,
    store: &mut Store,
    at: TermId,
    to: TermId,
) -> Result<(), Halt<NoSolution>>
    requires inside { at < length (nodes_of store.old) }
    requires variable { IsVariable (node_at (nodes_of store.old) at) }
    requires target { IsType (nodes_of store.old) to }
    requires end { IsLink (node_at (nodes_of store.old) to) → ⊥ }
    requires rest { IsNoRest (nodes_of store.old) at ⊎ IsRow (node_at (nodes_of store.old) to) }
    requires heavier { Always (nodes_of store.old)
        (λ s. StandsIn (nodes_of store.old) at to → s at ≢ s to) }
    requires apart { RestsApart (nodes_of store.old) }
    ensures grown { IsGrown store.old store.new }
    ensures bound { OnOk result (IsBound (nodes_of store.old) (nodes_of store.new) at to) }
    ensures refused { OnRefusal result (Never (nodes_of store.old) (λ s. s at ≡ s to)) }
{
    if stands_in(alloc, store, at, to)? {
        return Err(Halt::Because(NoSolution));
    }
    let flag = flag_of(store, at);
    narrow_all(alloc, store, to, flag)?;
    let end = store.find(to);
    store.link(at, end)?;
    Ok(())
}
