//! Tests of session files.
#![tactic(auto)]

#[cfg(test)]
mod bounds;
#[cfg(test)]
mod drawn;
#[cfg(test)]
mod more_rows;
#[cfg(test)]
mod rewriting;
#[cfg(test)]
mod rows;
