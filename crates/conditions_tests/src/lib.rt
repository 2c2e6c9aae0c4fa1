//! Tests of conditions on types: what satisfies them, or that nothing does.
#![tactic(auto)]

#[cfg(test)]
mod rows;
#[cfg(test)]
mod scene;
