//! Tests of whole projects: what their names stand for, their groups, and their first fault.
#![tactic(auto)]

#[cfg(test)]
mod faults;
#[cfg(test)]
mod groups;
#[cfg(test)]
mod projects;
#[cfg(test)]
mod show;
