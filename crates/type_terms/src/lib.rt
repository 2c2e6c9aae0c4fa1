//! The store of types while they are inferred: terms that name their parts by number, variables that
//! are linked to other terms, notes on sorts, and marks to which the store is taken back.
#![tactic(auto)]

mod change;
mod laws;
mod no_solution;
mod node;
mod shape;
mod store;

pub use elm_typing::Flag;
pub use laws::{
    unflagged_variables_are_free, variables_may_be_chosen, well_formed_rows_have_a_solution,
};
pub use no_solution::NoSolution;
pub use node::Node;
pub use shape::Shape;
pub use store::{Store, StoreMark};

/// A term's number. The terms of a store are numbered from 0 in the order in which they were made.
pub type TermId = u32;
