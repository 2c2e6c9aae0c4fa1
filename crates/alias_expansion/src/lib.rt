//! Written types with each alias in them written out, and each type named with its module.
#![tactic(auto)]

mod expansion;
mod instances;
mod parts;
mod plain_alias;
mod room;
mod table;

pub use expansion::{knows, plain};
pub use plain_alias::PlainAlias;
pub use room::Room;
pub use table::plain_aliases;
