//! What a port carries, by its type without aliases.
#![tactic(auto)]

mod fields;
mod limits;
mod types;

pub use types::carried;
