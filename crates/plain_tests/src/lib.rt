//! Tests of plain forms: definitions of a project's module, and the plain terms that they are.
#![tactic(auto)]

#[cfg(test)]
mod code;
#[cfg(test)]
mod forms;
#[cfg(test)]
mod projects;
#[cfg(test)]
mod shown;
