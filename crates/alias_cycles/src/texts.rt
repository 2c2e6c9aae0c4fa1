use elm_base::Name;
use sqlite_items::Items;
use type_names::KnownType;

/// An alias of a project.
#[derive(Drop)]
pub struct AliasText {
    pub module: Name,
    pub name: Name,
    /// The types that its text names.
    pub names: Items<KnownType>,
}
