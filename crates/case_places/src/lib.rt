//! The places of a module at which a case may be missing.
#![tactic(auto)]

mod parameters;
mod place;
mod places;

pub use place::Place;
pub use places::push_places;
