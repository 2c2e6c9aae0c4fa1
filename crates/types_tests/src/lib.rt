//! Tests of types: the store, unification and sorts, on types that are written as text.
#![tactic(auto)]

#[cfg(test)]
mod printer;
#[cfg(test)]
mod reader;
#[cfg(test)]
mod scene;
#[cfg(test)]
mod sorts;
#[cfg(test)]
mod terms;
#[cfg(test)]
mod unify;

#[cfg(test)]
use std::fmt::Debug;
#[cfg(test)]
use std::process::Abort;

// Both are equal.
#[cfg(test)]
pub fn same<T: PartialEq + Debug + Drop>(rt: &impl Abort, found: T, wanted: T, label: &str) {
    assert_eq!(rt; found, wanted, "{label}");
}
