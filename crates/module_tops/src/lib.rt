//! What a module defines at its top level, and which of it a list of exposed names picks.
#![tactic(auto)]

mod defined;
mod picks;
mod top;

pub use defined::{is_of_outbound, tops, types};
pub use picks::{is_named, is_shown, picks_top};
pub use top::{Kind, Top};
