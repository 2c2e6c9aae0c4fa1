ghost use Rattle.std.specs.Prelude.{◌≡◌, List, IfOk, true, false};
ghost use Rattle.type_sorts.specs.declared.edge.Vertex.{Vertex};
ghost use Rattle.type_sorts.specs.declared.edge.Vertex.TheVariants.{Simple};
ghost use Rattle.type_sorts.specs.Vertices.{Follows, Reached, Separates};

use crate::edge::{Edge, Vertex};
use elm_base::NoMemory;
use sqlite_items::Items;
use std::alloc::Global;

// Leaves out the edges that begin at the vertex, and lets their ends wait.
fn follow(
    alloc: Global,
    edges: &[Edge],
    vertex: Vertex,
    waiting: &mut Items<Vertex>,
) -> Result<Items<Edge>, NoMemory>
    ensures { IfOk result (λ kept. Follows vertex edges.now kept waiting.old waiting.new) }
{
    let mut kept = Items::new(alloc);
    for edge in edges {
        if edge.below.is(vertex) {
            waiting.push(edge.above)?;
        } else {
            kept.push(*edge)?;
        }
    }
    Ok(kept)
}

/// Whether the vertex of simple types is reached from that of signals.
pub fn reaches_simple(alloc: Global, edges: Items<Edge>) -> Result<bool, NoMemory>
    ensures reached { IfOk result (λ answer. answer ≡ true → Reached edges Simple) }
    ensures separate { IfOk result (λ answer. answer ≡ false → (signals : List Vertex) × Separates edges signals) }
{
    let mut left = edges;
    let mut waiting = Items::new(alloc);
    waiting.push(Vertex::Signal)?;
    while let Some(vertex) = waiting.pop() {
        if vertex.is(Vertex::Simple) {
            return Ok(true);
        }
        left = follow(alloc, left.as_slice(), vertex, &mut waiting)?;
    }
    Ok(false)
}
