//! Tests of schemes: what their copies may be made equal to.
#![tactic(auto)]

#[cfg(test)]
mod uses;
