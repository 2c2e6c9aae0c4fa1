ghost use Rattle.std.specs.Prelude.{◌≡◌, IfOk};
ghost use Rattle.type_sorts.specs.Vertices.{AreRests, rest_of};
ghost use Rattle.type_terms.specs.Depth.{IsStored};
ghost use Rattle.type_terms.specs.Terms.{nodes_of};

use elm_base::NoMemory;
use std::alloc::Global;
use type_terms::{Shape, Store, TermId};

fn rest_of(shape: &Shape) -> Option<TermId>
    ensures { result ≡ rest_of shape.now }
{
    match shape {
        Shape::Row { rest, .. } => *rest,
        _ => None,
    }
}

/// For each term whether it is the rest of a row.
pub fn rests(alloc: Global, store: &Store) -> Result<Vec<bool>, NoMemory>
    ensures marks { IfOk result (λ marks. AreRests (nodes_of store.now) marks.items) }
    ensures sound { IsStored store.now }
{
    store.stays_sound();
    let terms = store.terms();
    let mut marks = vec![in alloc; false; terms]?;
    for at in 0..terms {
        if let Some(rest) = rest_of(store.shape(at as TermId)) {
            let end = store.find(rest);
            marks[end as usize] = true;
        }
    }
    Ok(marks)
}
