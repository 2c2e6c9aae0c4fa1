use crate::known::KnownType;
use elm_base::{Import, Name};

/// Where the types of a module's texts are looked up.
#[derive(Clone, Copy)]
pub struct TypeScope<'a> {
    /// The types of all modules of the project.
    pub types: &'a [KnownType],
    /// The module's name.
    pub name: &'a Name,
    /// The imports with which each module begins.
    pub defaults: &'a [Import],
    /// Its own imports.
    pub imports: &'a [Import],
}
