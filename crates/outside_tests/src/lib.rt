//! Tests of the outside: sources, sinks and shelves over memory, and the adapters over the system, which no clause can
//! tell from a wrong system. Their readers and writers fail at chosen calls, and give or take few bytes at a time.
#![tactic(auto)]

#[cfg(test)]
mod faulty;
#[cfg(test)]
mod folder;
#[cfg(test)]
mod memory;
#[cfg(test)]
mod streams;

#[cfg(test)]
use std::fmt::Debug;
#[cfg(test)]
use std::process::Abort;

// Both are equal.
#[cfg(test)]
pub fn same<T: PartialEq + Debug + Drop>(rt: &impl Abort, found: T, wanted: T, label: &str) {
    assert_eq!(rt; found, wanted, "{label}");
}
