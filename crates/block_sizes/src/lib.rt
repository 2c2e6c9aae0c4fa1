//! Whether each block has at most as many definitions as it may, and else where the first too many stands.
#![tactic(auto)]

mod sizes;

pub use sizes::{MOST_DEFINITIONS, defined_at, large_declaration, left_behind};
