//! Tests of the history: rewinds and their steps, over a replay that counts, with and without memory.
#![tactic(auto)]

mod counter;
mod recording;
#[cfg(test)]
mod tests;

pub use counter::{Counter, CounterMark};
pub use recording::record;
