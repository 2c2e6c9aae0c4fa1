//! Tests of the values of ports: what a port begins with, values in values as texts, and literals that are read.
#![tactic(auto)]

#[cfg(test)]
mod reading;
#[cfg(test)]
mod tests;
