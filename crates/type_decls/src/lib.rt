//! The types and ports that a project declares: its unions, its aliases and its ports, or the first fault of these.
#![tactic(auto)]

mod aliases;
mod basics;
mod laws;
mod one_module;
mod ports;
mod unions;
mod whole;

pub use laws::declarations_are_determined;
pub use whole::declare;
