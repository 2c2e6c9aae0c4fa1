//! The log of one `async`: the values that it was given, oldest first, and how many of them were taken.
#![tactic(auto)]

mod log;

pub use log::{AsyncLog, LogMark};
