//! The modules of a project: which files are read, in which order, and what keeps a project from being loaded.
#![tactic(auto)]

mod laws;
mod opening;
mod stack;
mod stop;
mod visits;

pub use laws::one_outcome;
pub use stop::LoadStop;
pub use visits::load;
