//! What a grammar is put together of: tokens as terminals, the rules of a grammar and the parsers that read them, with their
//! laws (specs/ and proofs/), and the tokens that are left to a parser.
#![tactic(auto)]

mod cursor;
mod lists;
mod spelling;
mod terminal;
mod values;

pub use cursor::{Cursor, MOST_PARTS, NoTree};
pub use lists::{block, many, many_more, separated, some};
pub use terminal::Terminal;
pub use values::{boxed_pair, entire, paired, terminated, verified};
