use elm_base::Thing;

/// What a name stands for, or why it stands for nothing.
#[derive(Drop)]
pub enum Answer {
    Stands { thing: Thing },
    /// Nothing has the name.
    Unknown,
    /// Imports give different things for the name.
    Ambiguous,
}
