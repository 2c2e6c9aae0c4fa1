//! The definitions of a project in their plain form, group by group.
#![tactic(auto)]

mod finding;
mod inputs;
mod one;
mod pass;
mod whole;

pub use one::{CoreDefinition, RightSide};
pub use whole::definitions;
