use crate::TermId;
use crate::shape::Shape;

/// A term as the store keeps it. Links lead to an end.
#[derive(Drop)]
pub enum Node {
    End(Shape),
    /// The term was a variable, and stands for what the other one stands for.
    Link(TermId),
}
