//! The texts of values, as `toString` gives them, and the chars of texts counted.
#![tactic(auto)]

mod budget;
mod literal;
mod piece;
mod write;

pub use budget::count_chars;
pub use write::to_text;
