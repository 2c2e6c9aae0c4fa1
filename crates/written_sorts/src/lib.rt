//! Which written types have a well sorted instance.
#![tactic(auto)]

mod laws;

pub use laws::{
    forced_variables_decide, sorts_of_variables_decide, types_that_make_sense, types_without_sense,
};
