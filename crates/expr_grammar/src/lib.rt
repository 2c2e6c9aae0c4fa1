//! The grammar of expressions, and the parser of them as a function on plain data, with their laws (specs/ and proofs/).
#![tactic(auto)]

mod laws;

pub use laws::one_expr;
