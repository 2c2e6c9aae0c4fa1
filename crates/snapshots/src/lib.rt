//! A history of events over anything that can replay them, with marks from which a rewind starts.
#![tactic(auto)]

mod history;
mod replay;
mod rewind;

pub use history::History;
pub use replay::Replay;
