//! Lists of tokens as trees: expressions, exactly the one tree that derives, and beside them types and patterns.
#![tactic(auto)]

mod applications;
mod atoms;
mod begins;
mod blocks;
mod brackets;
mod calls;
mod chains;
mod exprs;
mod forms;
mod lists;
mod operators;
mod records;
mod shapes;

pub use calls::expr;
pub use chains::tree_at;
pub use expr_grammar::one_expr;
pub use grammar::NoTree;
pub use operators::{operator, sign};
pub use pattern_parser::{one_pattern, one_type, pattern, type_text};
