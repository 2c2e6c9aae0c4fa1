//! What the names of types stand for, and what is wrong at places in the texts of written types.
#![tactic(auto)]

mod answer;
mod known;
mod offers;
mod scope;
mod texts;

pub use answer::{TypeAnswer, type_at};
pub use known::{KnownType, known_types};
pub use scope::TypeScope;
pub use texts::{Variables, push_flaws, push_flaws_of};
