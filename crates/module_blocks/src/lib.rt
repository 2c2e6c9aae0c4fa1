//! The blocks of a module: which of their definitions refer to which.
#![tactic(auto)]

mod marks;
mod refers;

pub use marks::references;
pub use refers::comes_before;
