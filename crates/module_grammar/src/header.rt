//! The header of a module.
use elm_base::{At, Exposing, Name};

/// What a header says: the module's name and what it exposes.
#[derive(Drop)]
pub struct Header {
    pub at: At,
    pub name: Name,
    pub exposes: Exposing,
}
