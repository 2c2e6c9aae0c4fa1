use elm_base::{At, Pattern};
use sqlite_items::Items;

/// Where a case may be missing, and the patterns that are held against a value there.
#[derive(Drop)]
pub struct Place {
    /// The word `case`, or the first token of a pattern that stands alone.
    pub at: At,
    pub patterns: Items<Pattern>,
}
