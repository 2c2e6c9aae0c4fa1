//! Tests of which files a project reads, in which order, and what keeps it from being loaded.
#![tactic(auto)]

#[cfg(test)]
mod folder;
#[cfg(test)]
mod limits;
#[cfg(test)]
mod outcome;
#[cfg(test)]
mod projects;

#[cfg(test)]
use std::process::Abort;

// Both texts are equal.
#[cfg(test)]
pub fn same(rt: &impl Abort, found: &str, wanted: &str, label: &str) {
    assert_eq!(rt; found, wanted, "{label}");
}
