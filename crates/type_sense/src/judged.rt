use elm_base::Name;
use sqlite_items::Items;

/// What the sorts of a type come to, where certain variables and no others are of sort signal.
#[derive(Drop)]
pub struct Judged {
    /// Whether the type is of sort signal.
    pub signal: bool,
    /// Whether it is well sorted.
    pub holds: bool,
    /// Whether each variable before a bar may stand for any type.
    pub bars: bool,
    /// The variable in which it ends, if it ends in one.
    pub ends: Items<Name>,
    /// The variables that have to be of sort signal, since an argument is.
    pub forced: Items<Name>,
}
