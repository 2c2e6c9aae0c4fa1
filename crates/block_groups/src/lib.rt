//! The groups of all blocks of a module, by the places of their definitions, and which of them are values in cycles.
#![tactic(auto)]

mod cycles;
mod placed;
mod tops;
mod whole;

pub use whole::{Grouped, groups_in};
