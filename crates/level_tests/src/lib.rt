//! Tests of levels applied to projects: texts that are read as modules, and the trees of their chains or their first fault.
#![tactic(auto)]

#[cfg(test)]
mod rows;
#[cfg(test)]
mod show;
