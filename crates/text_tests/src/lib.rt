//! Tests of texts: the lines and commands of scripts, the script of a drill, frames and refusals.
#![tactic(auto)]

#[cfg(test)]
mod commands;
#[cfg(test)]
mod drill;
#[cfg(test)]
mod frames;
#[cfg(test)]
mod lines;

#[cfg(test)]
use std::fmt::Debug;
#[cfg(test)]
use std::process::Abort;

// Both are equal.
#[cfg(test)]
pub fn same<T: PartialEq + Debug + Drop>(rt: &impl Abort, found: T, wanted: T, label: &str) {
    assert_eq!(rt; found, wanted, "{label}");
}
