use type_terms::Shape;

/// One of the types that a scheme is made of. What it is made of itself are parts before it, by their numbers.
#[derive(Drop)]
pub enum Part {
    /// Some type of this shape: as a variable any that has the flag, else the one that its parts tell. The rest of a row
    /// is one of the two others.
    Shaped { shape: Shape },
    /// Some record, which may end rows.
    Rest,
    /// The record without fields over the opaque rest of this number.
    Rigid { number: u32 },
}
