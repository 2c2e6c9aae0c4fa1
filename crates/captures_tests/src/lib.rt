//! Tests of what is known of the terms of a program's code.
#![tactic(auto)]

#[cfg(test)]
mod rows;
