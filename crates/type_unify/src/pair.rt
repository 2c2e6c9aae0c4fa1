use type_terms::TermId;

/// Two terms whose types are to be equal.
#[derive(Clone, Copy)]
pub struct Pair {
    pub first: TermId,
    pub second: TermId,
}
