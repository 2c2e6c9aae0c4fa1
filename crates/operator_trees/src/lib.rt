//! The trees of chains: operands with operators between them, by the operators' levels and sides.
#![tactic(auto)]

mod binding;
mod chains;
mod laws;
mod levels;
mod roots;

pub use binding::{Below, Binding};
pub use chains::{Clash, chain, place};
pub use laws::{no_tree_where_operators_clash, one_tree};
pub use levels::Levels;
