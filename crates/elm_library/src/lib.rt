//! The library: its texts, and the modules that they stand for.
#![tactic(auto)]

mod basics;
mod data;
mod line;
mod mark;
mod reading;
mod signals;
mod source;

pub use mark::Mark;
pub use reading::read;
pub use source::{LIBRARY, Source};
