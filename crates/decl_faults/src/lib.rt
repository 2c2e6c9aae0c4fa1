//! The first fault of the types and ports that a project declares.
#![tactic(auto)]

mod judging;
mod laws;
mod one_module;
mod ports;
mod sense;
mod unions;
mod whole;

pub use laws::{constructors_are_judged_by_each_argument, decl_faults_are_determined};
pub use ports::carried_by;
pub use whole::decl_fault;
