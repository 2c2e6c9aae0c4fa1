//! Tests of the top call over memory: whole scripts, faults, and failures of the outside, with the bytes that are to be
//! written.
#![tactic(auto)]

#[cfg(test)]
mod runs;
#[cfg(test)]
mod tests;
