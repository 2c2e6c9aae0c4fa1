//! Which types without aliases make sense by their sorts, and by what stands before bars.
#![tactic(auto)]

mod judged;
mod judging;
mod parameters;
mod sense;

pub use sense::{alias_makes_sense, makes_sense};
