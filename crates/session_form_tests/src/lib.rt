//! Tests of the form of a session.
#![tactic(auto)]

#[cfg(test)]
mod tests;
