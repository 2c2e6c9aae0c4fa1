//! Tests of modules: texts that the lexer cuts, and what stands in their trees, or their first fault.
#![tactic(auto)]

#[cfg(test)]
mod limits;
#[cfg(test)]
mod modules;
#[cfg(test)]
mod show;
