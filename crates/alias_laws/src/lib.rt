//! Laws of the aliases of a project that are written out.
#![tactic(auto)]

mod laws;

pub use laws::{aliases_without_fault_are_written_out, tables_of_aliases_agree};
