//! Tests of the library: its texts have no fault in any of their phases, and natives have the numbers by which they are called.
#![tactic(auto)]

#[cfg(test)]
mod faults;
#[cfg(test)]
mod names;
#[cfg(test)]
mod phases;

#[cfg(test)]
use std::fmt::Debug;
#[cfg(test)]
use std::process::Abort;

// Both are equal.
#[cfg(test)]
pub fn same<T: PartialEq + Debug + Drop>(rt: &impl Abort, found: T, wanted: T, label: &str) {
    assert_eq!(rt; found, wanted, "{label}");
}
