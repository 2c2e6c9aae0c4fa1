//! The layout of Elements in rows of cells: texts, blank rectangles, items beside and above each other, and frames.
#![tactic(auto)]

mod blanks;
mod bytes;
mod flows;
mod frames;
mod lines;
mod types;

pub use blanks::spacer;
pub use bytes::chars_of;
pub use flows::{flow, grown};
pub use frames::container;
pub use lines::{text_cells, text_size};
pub use types::{Cells, Direction, Position, Size};
