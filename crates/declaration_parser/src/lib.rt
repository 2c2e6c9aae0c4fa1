//! Chunks of a module's tokens as trees: a header, an import or a declaration, exactly the one that derives.
#![tactic(auto)]

mod chunk;
mod declarations;
mod exposing;
mod heads;
mod names;

pub use chunk::{declaration_line, header_line, import_line};
pub use names::own_name;
