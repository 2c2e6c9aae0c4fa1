//! Tests of the types and ports that a project declares: texts that are read as the modules of a project, and what it declares
//! or its first fault.
#![tactic(auto)]

#[cfg(test)]
mod declared;
#[cfg(test)]
mod faults;
#[cfg(test)]
mod library;
#[cfg(test)]
mod projects;
#[cfg(test)]
mod shown;
