//! Which notes on sorts say that types are well sorted.
#![tactic(auto)]

mod asking;
mod laws;
mod parts;

pub use asking::sort_notes;
pub use laws::variables_can_be_sorted;
