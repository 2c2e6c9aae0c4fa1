//! Tests of the natives: each with its answer, its fault, its work and one unit too few.
#![tactic(auto)]

#[cfg(test)]
mod stock;
#[cfg(test)]
mod table;

#[cfg(test)]
use std::fmt::Debug;
#[cfg(test)]
use std::process::Abort;

// Both are equal.
#[cfg(test)]
pub fn same<T: PartialEq + Debug + Drop>(rt: &impl Abort, found: T, wanted: T, label: &str) {
    assert_eq!(rt; found, wanted, "{label}");
}
