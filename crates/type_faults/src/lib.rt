//! The first fault in the texts of a project's types: at a place in a text, or that an alias reaches itself.
#![tactic(auto)]

mod first;
mod flaws;
mod laws;
mod whole;

pub use first::first_fault;
pub use flaws::faults_in;
pub use laws::text_faults_are_determined;
pub use whole::text_fault;
