//! Types that are written in a program, as terms: each instance of a written type that its variables' names allow.
#![tactic(auto)]

mod building;
mod instances;
mod table;
mod uses;

pub use building::build;
pub use instances::{instance, variables_of};
pub use table::Variable;
