//! Solves equations between the types of a store.
#![tactic(auto)]

mod bind;
mod fields;
mod flags;
mod occurs;
mod pair;
mod parts;
mod read;
mod rows;
mod solver;
mod step;
mod take;
mod types;

pub use rows::Tail;
pub use solver::unify;
pub use types::Types;
