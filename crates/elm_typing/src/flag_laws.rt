//! Laws of the flags. The bodies are empty: what is stated holds of the definitions.

ghost use Rattle.std.specs.Prelude.{◌≢◌, ◌↔◌, ℕ, codes};
ghost use Rattle.elm_typing.specs.declared.flag.Flag.{Flag};
ghost use Rattle.elm_typing.specs.declared.flag.Flag.TheVariants.{Plain, Comparable};
ghost use Rattle.elm_typing.specs.Flags.{HasFlag, IsAppendable, IsComparable, joined};
ghost use Rattle.elm_typing.specs.Ground.{Ground, Row, Named, Function, Tuple, Record, Opaque, NoGrounds, AndGround};
ghost use Rattle.elm_typing.specs.Names.{int_name, char_name, string_name, list_of};

/// Int, Char and String are ordered, and so are lists and tuples with parts where their parts are.
pub fn comparable_types()
    ensures int { IsComparable (Named int_name NoGrounds) }
    ensures char { IsComparable (Named char_name NoGrounds) }
    ensures string { IsComparable (Named string_name NoGrounds) }
    ensures list { (t : Ground) → IsComparable (list_of t) ↔ IsComparable t }
    ensures pair { (t u : Ground) → IsComparable (Tuple (AndGround t (AndGround u NoGrounds))) ↔
        (IsComparable t × IsComparable u) }
    ensures unit { IsComparable (Tuple NoGrounds) → ⊥ }
    ensures union { IsComparable (Named (codes "Basics.Bool") NoGrounds) → ⊥ }
{}

/// String and lists can be joined, whatever the elements.
pub fn appendable_types()
    ensures string { IsAppendable (Named string_name NoGrounds) }
    ensures list { (t : Ground) → IsAppendable (list_of t) }
    ensures int { IsAppendable (Named int_name NoGrounds) → ⊥ }
    ensures pair { (t u : Ground) → IsAppendable (Tuple (AndGround t (AndGround u NoGrounds))) → ⊥ }
{}

/// Records and functions have no flag, and an opaque type has its own.
pub fn flags_of_other_types()
    ensures record { (flag : Flag) (row : Row) → flag ≢ Plain → HasFlag flag (Record row) → ⊥ }
    ensures function { (flag : Flag) (a b : Ground) → flag ≢ Plain → HasFlag flag (Function a b) → ⊥ }
    ensures opaque { (flag : Flag) (number : ℕ) → HasFlag flag (Opaque number flag) }
    ensures unflagged { (flag : Flag) (number : ℕ) → flag ≢ Plain → HasFlag flag (Opaque number Plain) → ⊥ }
{}

/// A type has two flags joined exactly where it has both.
pub fn joined_flags_ask_for_both()
    ensures { (f g : Flag) (t : Ground) → HasFlag (joined f g) t ↔ (HasFlag f t × HasFlag g t) }
{}
