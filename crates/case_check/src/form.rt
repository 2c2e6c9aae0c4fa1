use elm_base::Name;
use sqlite_items::Items;

/// What a pattern asks for, its names and the values of its literals aside. Tuples, `()` and lists count as constructors.
#[derive(Drop)]
pub enum Form {
    Anything,
    Literal,
    /// One of the constructors of its union, each with the number of its arguments.
    Made {
        union: Items<(Name, usize)>,
        constructor: Name,
        parts: Items<Form>,
    },
}
