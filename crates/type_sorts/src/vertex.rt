ghost use Rattle.std.specs.Prelude.{◌≡◌, ℕ, ◌<◌, length};
ghost use Rattle.elm_typing.specs.Sorts.{Sort, sort_of};
ghost use Rattle.type_sorts.specs.Vertices.{AreRests, IsArrow, Stands, vertex_of};
ghost use Rattle.type_terms.specs.Terms.{IsLink, node_at, nodes_of};
ghost use Rattle.type_terms.specs.Solutions.{Assignment, Solves};

use crate::edge::Vertex;
use type_terms::{Flag, Shape, Store, TermId};

/// The name of the type of signals, with its module.
const SIGNAL: &[u8] = b"Signal.Signal";

// The last result of a function; a term that is no function itself.
fn last_result(store: &Store, at: TermId) -> TermId
    requires { at < length (nodes_of store.now) }
    ensures inside { result < length (nodes_of store.now) }
    ensures end { IsLink (node_at (nodes_of store.now) result) → ⊥ }
    ensures value { IsArrow (node_at (nodes_of store.now) result) → ⊥ }
    ensures sort { (s : Assignment) (chosen : ℕ → Sort) → Solves (nodes_of store.now) s
        → sort_of chosen (s at) ≡ sort_of chosen (s result) }
{
    let mut end = store.find(at);
    while let Shape::Arrow { to, .. } = store.shape(end) {
        end = store.find(*to);
    }
    end
}

// The vertex of the end of a term with this shape; `rest` says whether it is the rest of a row.
fn shape_vertex(shape: &Shape, end: TermId, rest: bool) -> Vertex
    ensures { result ≡ vertex_of shape.now end rest }
{
    match shape {
        Shape::Variable { flag: Flag::Plain } if !rest => Vertex::Variable(end),
        Shape::Opaque {
            number,
            flag: Flag::Plain,
        } if !rest => Vertex::Opaque(*number),
        Shape::Named { name, .. } if name.is(SIGNAL) => Vertex::Signal,
        _ => Vertex::Simple,
    }
}

/// The vertex that has the term's sort.
pub fn vertex(store: &Store, rests: &[bool], at: TermId) -> Vertex
    requires inside { at < length (nodes_of store.now) }
    requires rests { AreRests (nodes_of store.now) rests.now }
    ensures { Stands (nodes_of store.now) at result }
{
    let end = last_result(store, at);
    shape_vertex(store.shape(end), end, rests[end as usize])
}
