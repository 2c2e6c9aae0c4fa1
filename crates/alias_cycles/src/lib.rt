//! The aliases of a project, and which of them reach themselves.
#![tactic(auto)]

mod marks;
mod naming;
mod texts;

pub use marks::reached;
pub use naming::aliases;
pub use texts::AliasText;
