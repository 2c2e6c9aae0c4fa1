//! Equations between the types of a store, and sorts that meet its notes. What solves them stands in two crates beside each
//! other, `type_unify` and `type_sorts`, and is handed on here under one name.
#![tactic(auto)]

pub use type_sorts::sorts;
pub use type_terms::NoSolution;
pub use type_unify::{Tail, Types, unify};
