//! How deep trees nest, against a limit. A tree without parts has nesting 0, and any other one more than the most of its
//! parts, save for chains, calls, lambdas and definitions, whose rules stand in specs/ExpressionNesting.antt.
#![tactic(auto)]

mod expressions;
mod nesting;

pub use expressions::{declaration_nests_within, expr_nests_within};
pub use nesting::{MOST_NESTING, pattern_nests_within, type_nests_within};
