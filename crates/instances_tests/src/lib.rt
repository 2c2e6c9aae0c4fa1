//! Tests of written types as terms: which of two written types have an instance in common.
#![tactic(auto)]

#[cfg(test)]
mod meeting;
#[cfg(test)]
mod rows;
