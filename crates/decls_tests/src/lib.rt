//! Tests of declared types: texts that are read as the modules of a project, and its first fault.
#![tactic(auto)]

#[cfg(test)]
mod expansions;
#[cfg(test)]
mod ports;
#[cfg(test)]
mod projects;
#[cfg(test)]
mod rows;
