use elm_base::{At, Name, Spot};
use sqlite_items::Items;

/// What happens to names at one place, when a tree is read from left to right.
#[derive(Drop)]
pub enum Step {
    /// A scope opens.
    Opens,
    /// The scope that opened last closes: what it bound is gone.
    Closes,
    /// Names are bound, all of one pattern or of one block: they are to differ.
    Binds {
        spots: Items<Spot>,
    },
    /// Names of values or constructors are used.
    Uses {
        spots: Items<Spot>,
    },
    /// The labels of one record form: they are to differ.
    Labels {
        spots: Items<Spot>,
    },
    /// The definitions of a `let`, whose word stands at this place. What follows from `end` on belongs to none of them.
    Block {
        at: At,
        definitions: Items<Defined>,
        end: At,
    },
}

/// A definition of a block.
#[derive(Drop)]
pub struct Defined {
    pub at: At,
    /// Its name, which is empty where a pattern is defined.
    pub name: Name,
    /// What it binds: its own name, or the names of its pattern.
    pub binds: Items<Spot>,
    /// Whether it has a parameter or its right side is a lambda, brackets round it aside.
    pub function: bool,
}
