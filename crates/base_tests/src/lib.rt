//! Tests of the crates at the base: names and trees, tables of bits, the log of an `async`.
#![tactic(auto)]

#[cfg(test)]
mod bits;
#[cfg(test)]
mod logs;
#[cfg(test)]
mod names;
