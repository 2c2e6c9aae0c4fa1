//! Literals of ports' types: their values are read from texts.
#![tactic(auto)]

mod forms;
mod laws;
mod leaves;
mod parts;
mod ports;
mod scan;
mod value;
mod worked;

pub use laws::{a_literal_has_one_value, a_printed_value_is_its_literal};
pub use ports::is_port;
pub use value::{BadValue, read_value};
