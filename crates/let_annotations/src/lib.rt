//! The annotations in the blocks of `let`.
#![tactic(auto)]

mod annotation;
mod copies;
mod found;

pub use annotation::LetAnnotation;
pub use copies::copy_type;
pub use found::push_annotations;
