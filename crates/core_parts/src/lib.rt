//! Parts of plain forms: names, patterns, expressions without parts, and what becomes of the definitions of a `let`.
#![tactic(auto)]

mod blocks;
mod definitions;
mod members;
mod names;
mod operations;
mod patterns;

pub use blocks::{Block, group_alone, let_tree};
pub use definitions::member_with;
pub use members::{Member, stands_at};
pub use names::nothing;
pub use operations::{leaf, negated, operation, with_fields};
pub use patterns::{plain_pattern, plain_patterns};
