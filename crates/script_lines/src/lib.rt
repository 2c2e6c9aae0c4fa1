//! Scripts: their bytes as they come in pieces, their lines, and the commands that lines spell.
#![tactic(auto)]

mod bytes;
mod commands;
mod drill;
mod laws;
mod line;
mod lines;
mod names;
mod verb;

pub use drill::script;
pub use laws::{
    commands_are_as_worked, kept_bytes_say_the_same, lines_are_as_worked, lines_join,
    whole_lines_are_handed_out,
};
pub use line::Line;
pub use lines::Lines;
pub use names::is_file_name;
