//! Closed schemes: a set of types told by its own variables, flags and notes on sorts, and a fresh copy of it at each use.
#![tactic(auto)]

mod cases;
mod copying;
mod part;
mod scheme;

pub use cases::{flags_are_kept, rests_are_records, sorts_are_kept, variables_have_one_type};
pub use part::Part;
pub use scheme::Scheme;
