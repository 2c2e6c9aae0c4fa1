//! Tests of the rules of typing over terms.
#![tactic(auto)]

#[cfg(test)]
mod rows;
#[cfg(test)]
mod scene;
