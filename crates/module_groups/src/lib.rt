//! The definitions of a block in groups: which of them reach each other, and in which order the groups stand.
#![tactic(auto)]

mod block;
mod group;
mod search;

pub use block::{groups, groups_are_determined};
pub use group::Component;
