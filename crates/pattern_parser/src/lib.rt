//! Lists of tokens as trees: types and patterns, exactly the one tree that derives.
#![tactic(auto)]

mod patterns;
mod types;

pub use patterns::{
    begins_pattern, brackets_at, cons_at, labels, one_pattern, part_at, pattern, pattern_at,
};
pub use types::{arguments_at, one_type, type_at, type_text};
