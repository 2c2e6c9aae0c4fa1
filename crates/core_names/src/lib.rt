//! What the names of one top-level definition stand for, looked up in tables, and how its binders are numbered.
#![tactic(auto)]

mod binders;
mod constructors;
mod makers;
mod names;
mod numbers;
mod tops;
mod walk;

pub use binders::Binders;
pub use makers::Made;
pub use names::{Names, same_place};
pub use numbers::Numbered;
pub use tops::{TopName, TopThing};
pub use walk::binders_in;
