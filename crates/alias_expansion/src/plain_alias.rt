use elm_base::{Name, TypeTree};
use sqlite_items::Items;

/// An alias of a project that is written out.
#[derive(Drop)]
pub struct PlainAlias {
    pub module: Name,
    pub name: Name,
    pub parameters: Items<Name>,
    /// Its text without aliases. There is none where something other than a record or a variable stands before a bar.
    pub written: Option<TypeTree>,
}
