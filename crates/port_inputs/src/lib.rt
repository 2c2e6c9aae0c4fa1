//! Values of ports given to a program: whether recorded events fit it, and values placed in an arena.
#![tactic(auto)]

mod fit;
mod placing;
mod types;
mod worked;

pub use fit::{Misfit, fits};
pub use placing::place;
pub use types::same_type;
pub use worked::values_are_as_worked;
