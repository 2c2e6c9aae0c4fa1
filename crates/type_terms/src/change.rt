use crate::TermId;
use elm_typing::Flag;

/// What is needed to take one change of a store back.
#[derive(Clone, Copy, Debug)]
pub enum Change {
    /// The newest term was made.
    Made,
    /// The newest note was written.
    Noted,
    /// The term was a variable with this flag.
    WasVariable { at: TermId, flag: Flag },
}
