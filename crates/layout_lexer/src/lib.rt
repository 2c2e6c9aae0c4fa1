//! Texts as tokens with lines and columns.
#![tactic(auto)]

mod blank;
mod byte_class;
mod lexer;
mod literal;
mod name;
mod piece;
mod place;

pub use lexer::{one_reading, tokens};
pub use place::TextFault;
