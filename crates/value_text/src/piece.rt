//! What a text consists of.
use elm_base::Ref;

/// A piece of a text that is still to be written.
#[derive(Clone, Copy, Debug, PartialEq, Eq)]
pub enum Piece {
    /// The text of a value.
    Whole { at: Ref },
    /// What follows the first element of a list: further elements and the bracket.
    Rest { at: Ref },
    /// A tuple's parts from a place on, each behind a comma, and the bracket.
    Parts { at: Ref, from: usize },
    /// A constructor's arguments from a place on, each behind a space.
    Arguments { at: Ref, from: usize },
    /// A record's fields behind the one at a place, each behind a comma, and the bracket.
    Fields { at: Ref, last: usize },
    /// The bracket behind an argument.
    Closing,
}
