//! What happens to names when a tree is read from left to right: scopes that open and close, names that are bound and used.
#![tactic(auto)]

mod declarations;
mod expressions;
mod patterns;
mod pushes;
mod step;

pub use declarations::push_defined;
pub use expressions::{push_declaration, push_expr};
pub use step::{Defined, Step};
