//! Tests of the texts of ports' types, of events held against inputs, and of values placed in an arena.
#![tactic(auto)]

#[cfg(test)]
mod inputs;
#[cfg(test)]
mod texts;
