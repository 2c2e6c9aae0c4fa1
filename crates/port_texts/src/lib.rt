//! The texts of ports' types, read and written.
#![tactic(auto)]

mod given;
mod head;
mod laws;
mod left;
mod read;
mod worked;

pub use frame_text::write_type as print_type;
pub use given::is_given_port;
pub use laws::{a_text_has_one_type, given_types_are_ports};
pub use read::{BadPortText, read_type};
pub use worked::types_are_as_worked;
