//! What a text spells: the one tree that derives from its tokens (specs/ and proofs/).
#![tactic(auto)]

mod laws;

pub use laws::{one_tree, worked_texts};
