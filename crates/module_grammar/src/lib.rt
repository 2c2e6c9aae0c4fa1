//! The grammar of modules, and the reading of one as a function on plain data, with their laws (specs/ and proofs/).
#![tactic(auto)]

mod header;
mod laws;

pub use header::Header;
pub use laws::{annotations_lead, one_declaration, one_module, one_outcome};
