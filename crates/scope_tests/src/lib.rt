//! Tests of names and groups.
#![tactic(auto)]

#[cfg(test)]
mod blocks;
