//! Laws that join typing and code: what is well typed has no free names.
#![tactic(auto)]

mod laws;

pub use laws::{code_of_typed_definitions_is_lowered, typed_terms_have_no_free_names};
