use elm_base::{At, Name, TypeTree};

/// An annotation in the block of a `let`.
#[derive(Drop)]
pub struct LetAnnotation {
    pub at: At,
    pub name: Name,
    pub written: TypeTree,
}
