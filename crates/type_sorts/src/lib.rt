//! Whether sorts meet the notes of a store.
#![tactic(auto)]

mod edge;
mod notes;
mod reach;
mod rests;
mod vertex;

pub use notes::sorts;
