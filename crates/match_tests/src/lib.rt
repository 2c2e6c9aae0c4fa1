//! Tests of patterns against values, and of names as slots.
#![tactic(auto)]

#[cfg(test)]
mod patterns;
#[cfg(test)]
mod rows;
#[cfg(test)]
mod slots;
#[cfg(test)]
mod stock;

#[cfg(test)]
use std::fmt::Debug;
#[cfg(test)]
use std::process::Abort;

// Both are equal.
#[cfg(test)]
pub fn same<T: PartialEq + Debug + Drop>(rt: &impl Abort, found: T, wanted: T, label: &str) {
    assert_eq!(rt; found, wanted, "{label}");
}
