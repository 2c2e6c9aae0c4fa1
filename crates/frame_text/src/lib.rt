//! The texts that the program writes: frames, and the lines of refusals and faults.
#![tactic(auto)]

mod faults;
mod frame;
mod lines;
mod parts;
mod refusals;
mod types;
mod worked;

pub use cell_rows::{
    Cells, Direction, Position, Size, container, flow, grown, spacer, text_cells, text_size,
};
pub use faults::{write_fault, write_shelf_failure};
pub use frame::write_frame;
pub use parts::Parts;
pub use refusals::write_refusal;
pub use types::write_type;
pub use worked::texts_are_as_worked;
