//! Plain terms as the code of a program: terms that name their parts by places.
#![tactic(auto)]

mod patterns;
mod terms;
mod walk;
mod whole;

pub use whole::lower;
