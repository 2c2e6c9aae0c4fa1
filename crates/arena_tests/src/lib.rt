//! Tests of the store of values: pushes and cuts, and comparisons with the units that they spend.
#![tactic(auto)]

#[cfg(test)]
mod tests;

#[cfg(test)]
use std::fmt::Debug;
#[cfg(test)]
use std::process::Abort;

// Both are equal.
#[cfg(test)]
pub fn same<T: PartialEq + Debug + Drop>(rt: &impl Abort, found: T, wanted: T, label: &str) {
    assert_eq!(rt; found, wanted, "{label}");
}
