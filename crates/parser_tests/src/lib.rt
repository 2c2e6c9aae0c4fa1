//! Tests of the lexer and the parsers: texts and their tokens, types, patterns and expressions from texts that the lexer cuts.
#![tactic(auto)]

#[cfg(test)]
mod expressions;
#[cfg(test)]
mod form;
#[cfg(test)]
mod patterns;
#[cfg(test)]
mod reading;
#[cfg(test)]
mod show;
#[cfg(test)]
mod tokens;
#[cfg(test)]
mod types;

#[cfg(test)]
use std::fmt::Debug;
#[cfg(test)]
use std::process::Abort;

// Both are equal.
#[cfg(test)]
pub fn same<T: PartialEq + Debug + Drop>(rt: &impl Abort, found: T, wanted: T, label: &str) {
    assert_eq!(rt; found, wanted, "{label}");
}
