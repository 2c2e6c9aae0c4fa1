//! Conditions on types as a program is read: terms, equations between them, flags, notes on sorts, and which types are to
//! be well sorted. Whether any types satisfy them is decided.
#![tactic(auto)]

mod conditions;
mod decide;

pub use conditions::{Conditions, ConditionsMark};
pub use type_unify::Tail;
