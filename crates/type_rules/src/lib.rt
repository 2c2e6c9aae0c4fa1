//! What the rules of typing ask of terms: one call for each form of expression whose parts have terms already.
#![tactic(auto)]

mod bases;
mod calls;
mod given;
mod records;

pub use bases::{base, hold_base, list_of, literal, signal_of};
pub use calls::{call, held, range};
pub use records::{extend, field, has_newest, remove};
