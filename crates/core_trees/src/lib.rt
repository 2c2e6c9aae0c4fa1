//! The plain form as trees of the code: what inference types and lowering erases.
#![tactic(auto)]

mod functions;
mod laws;
mod pattern;
mod tree;

pub use functions::{is_function, lambdas};
pub use laws::parts_stand_in_turn;
pub use pattern::PatternTree;
pub use tree::{CoreTree, LetFunction, LetGroup};
