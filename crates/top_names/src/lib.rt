//! The names at the top level of a project, with the numbers by which its code knows them.
#![tactic(auto)]

mod natives;
mod values;
mod whole;

pub use values::name_in;
pub use whole::top_names;
