ghost use Rattle.std.specs.Prelude.{◌≡◌, ◌↔◌};
ghost use Rattle.elm_typing.specs.Flags.{HasFlag, joined};
ghost use Rattle.elm_typing.specs.Ground.{Ground};

/// What a type variable or an opaque type is restricted to.
#[derive(Clone, Copy, Debug, PartialEq, Eq)]
pub enum Flag {
    /// Every type.
    Plain,
    /// Types whose values are ordered: Int, Char, String, and lists and tuples of such types.
    Comparable,
    /// Types whose values can be joined: String and lists.
    Appendable,
    /// Types that are comparable and appendable.
    Both,
}

impl Flag {
    /// The flag of the types that have both flags.
    pub fn joined(self, other: Flag) -> Flag
        ensures flag { result ≡ joined self other }
        ensures types { (type : Ground) → HasFlag result type ↔ (HasFlag self type × HasFlag other type) }
    {
        match (self, other) {
            (Flag::Plain, flag) | (flag, Flag::Plain) => flag,
            (Flag::Comparable, Flag::Comparable) => Flag::Comparable,
            (Flag::Appendable, Flag::Appendable) => Flag::Appendable,
            _ => Flag::Both,
        }
    }
}
