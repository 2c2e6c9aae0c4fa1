//! The plain form of a definition, as a tree of the code.
#![tactic(auto)]

mod walk;
mod whole;

pub use whole::plain_definition;
