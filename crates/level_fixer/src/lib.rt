//! Levels of operators applied to a project: each chain gives its place to its tree, or the project has a fault.
#![tactic(auto)]

mod laws;
mod project;
mod trees;
mod turns;

pub use laws::{
    a_chain_has_no_other_tree, a_chain_stands_for_its_tree, a_chain_without_a_tree,
    chains_are_seen, no_chain_is_left,
};
pub use project::fix;
