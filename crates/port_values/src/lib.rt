//! Values of ports: what is a value of a port's type, with which value a port begins, and how values are written.
#![tactic(auto)]

mod defaults;
mod laws;
mod print;
mod worked;

pub use defaults::default_of;
pub use laws::{default_is_of_its_type, printed_leaves_are_their_literals};
pub use print::print_value;
pub use worked::{leaves_are_as_worked, literals_are_as_worked, values_are_as_worked};
