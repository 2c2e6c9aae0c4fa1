ghost use Rattle.std.specs.Prelude.{◌≡◌, ◌↔◌, IsTrue};

use type_terms::TermId;

/// What the sort of a term comes to, the vertices of the notes' graph: one that is known, or that of a variable or of an opaque type.
#[derive(Clone, Copy, Debug, PartialEq, Eq)]
pub enum Vertex {
    Simple,
    Signal,
    /// An unlinked variable that may have any type.
    Variable(TermId),
    /// The opaque type of this number, without flag.
    Opaque(u32),
}

impl Vertex {
    /// Whether they are the same vertex.
    pub fn is(self, other: Vertex) -> bool
        ensures { IsTrue result ↔ (self ≡ other) }
    {
        self == other
    }
}

/// A note: where the sort below is signal, so is the one above.
#[derive(Clone, Copy, Debug)]
pub struct Edge {
    pub below: Vertex,
    pub above: Vertex,
}
