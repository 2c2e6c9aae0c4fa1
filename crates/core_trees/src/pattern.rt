use elm_base::{Literal, Name};
use sqlite_items::{Boxed, Items};

/// A pattern of the plain form. Its names are the numbers of their binders.
#[derive(Drop)]
pub enum PatternTree {
    Anything,
    Local {
        number: u32,
    },
    Literal {
        value: Literal,
    },
    /// A constructor of the union of this name, which has its module before it.
    Made {
        of_union: Name,
        constructor: Name,
        parts: Items<PatternTree>,
    },
    Cons {
        head: Boxed<PatternTree>,
        tail: Boxed<PatternTree>,
    },
    /// So many elements in front of the empty list.
    List {
        parts: Items<PatternTree>,
    },
    Tuple {
        parts: Items<PatternTree>,
    },
    /// Of each label the newest field, under a number.
    Fields {
        labels: Items<(Name, u32)>,
    },
    Named {
        inner: Boxed<PatternTree>,
        number: u32,
    },
}
