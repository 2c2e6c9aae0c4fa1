//! What each name in a module stands for.
#![tactic(auto)]

mod defaults;
mod face;
mod flaws;
mod found;
mod imported;
mod lookup;
mod split;
mod walk;
mod whole;

pub use defaults::defaults_for;
pub use face::{Face, face_of};
pub use flaws::Flaw;
pub use found::Answer;
pub use lookup::{Scope, name_at};
pub use walk::{Use, Walk};
pub use whole::{Named, named_module};
