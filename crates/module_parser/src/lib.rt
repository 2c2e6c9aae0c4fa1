//! Lists of tokens as modules: exactly the one module that derives, or the fault of the first chunk of tokens that is wrong.
#![tactic(auto)]

mod reading;

pub use level_fixer::fix;
pub use module_grammar::{annotations_lead, one_declaration, one_module, one_outcome};
pub use reading::module;
