//! Worked cases of sorts, flags and rows: a type on each side of each rule. The bodies are empty: what is stated holds of
//! the definitions.

ghost use Rattle.std.specs.Prelude.{◌≡◌, Some, None, [], ◌∷◌, codes};
ghost use Rattle.elm_typing.specs.declared.flag.Flag.TheVariants.{Plain, Comparable, Appendable, Both};
ghost use Rattle.elm_typing.specs.Flags.{IsComparable, IsAppendable, HasFlag, joined};
ghost use Rattle.elm_typing.specs.Ground.{Named, Function, Record, Opaque, NoGrounds, AndGround};
ghost use Rattle.elm_typing.specs.Names.{list_of, signal_of};
ghost use Rattle.elm_typing.specs.Ordered.{InOrder};
ghost use Rattle.elm_typing.specs.Rows.{extended, types_of, rest_of, newest, removed, Lacks, Apart};
ghost use Rattle.elm_typing.specs.Sorts.{Simple, Signal, IsAtMost, IsWellSorted, sort_of};
ghost use Rattle.elm_typing.specs.Spelling.{int, char, string, bool, maybe, result_of, tuple, row, record_of, all_simple, all_signal};

/// The types of the library that the rules speak of, by their names with their modules.
pub fn library_types_have_names()
    ensures int { int ≡ Named (codes "Basics.Int") NoGrounds }
    ensures char { char ≡ Named (codes "Basics.Char") NoGrounds }
    ensures string { string ≡ Named (codes "Basics.String") NoGrounds }
    ensures list { list_of int ≡ Named (codes "Basics.List") (AndGround int NoGrounds) }
    ensures signal { signal_of int ≡ Named (codes "Signal.Signal") (AndGround int NoGrounds) }
{}

/// Simple is below signal.
pub fn simple_is_below_signal()
    ensures same { IsAtMost Simple Simple }
    ensures below { IsAtMost Simple Signal }
    ensures signals { IsAtMost Signal Signal }
    ensures above { IsAtMost Signal Simple → ⊥ }
{}

/// Only signals, functions to them and opaque types without a flag may be signal.
pub fn types_have_sorts()
    ensures int { sort_of all_signal int ≡ Simple }
    ensures signal { sort_of all_simple (signal_of int) ≡ Signal }
    ensures function { sort_of all_simple (Function (signal_of int) int) ≡ Simple }
    ensures lifted { sort_of all_simple (Function int (Function int (signal_of int))) ≡ Signal }
    ensures tuple { sort_of all_signal (tuple (int ∷ int ∷ [])) ≡ Simple }
    ensures union { sort_of all_signal (maybe int) ≡ Simple }
    ensures record { sort_of all_signal (record_of (("x", int) ∷ [])) ≡ Simple }
    ensures opaque { sort_of all_signal (Opaque 1 Plain) ≡ Signal }
    ensures simple { sort_of all_simple (Opaque 1 Plain) ≡ Simple }
    ensures comparable { sort_of all_signal (Opaque 1 Comparable) ≡ Simple }
    ensures appendable { sort_of all_signal (Opaque 1 Appendable) ≡ Simple }
    ensures both { sort_of all_signal (Opaque 1 Both) ≡ Simple }
{}

/// A function's argument has a sort of at most its result's, and both are well sorted.
pub fn functions_may_be_well_sorted()
    ensures values { IsWellSorted all_simple (Function int int) }
    ensures lifts { IsWellSorted all_simple (Function int (signal_of int)) }
    ensures signals { IsWellSorted all_simple (Function (signal_of int) (signal_of int)) }
    ensures hides { IsWellSorted all_simple (Function (signal_of int) int) → ⊥ }
    ensures late { IsWellSorted all_simple (Function (signal_of int) (Function int (signal_of int))) }
    ensures too_late { IsWellSorted all_simple (Function (signal_of int) (Function int int)) → ⊥ }
    ensures argument { IsWellSorted all_simple (Function (Function (signal_of int) int) int) → ⊥ }
    ensures result { IsWellSorted all_simple (Function int (Function (signal_of int) int)) → ⊥ }
    ensures opaque { IsWellSorted all_signal (Function (Opaque 1 Plain) int) → ⊥ }
    ensures chosen { IsWellSorted all_simple (Function (Opaque 1 Plain) int) }
    ensures flagged { IsWellSorted all_signal (Function (Opaque 1 Comparable) int) }
{}

/// The parts of unions, of `Signal`, of tuples and of records are well sorted and simple.
pub fn parts_are_simple()
    ensures list { IsWellSorted all_simple (list_of int) }
    ensures list_of_signals { IsWellSorted all_simple (list_of (signal_of int)) → ⊥ }
    ensures list_of_lifts { IsWellSorted all_simple (list_of (Function int (signal_of int))) → ⊥ }
    ensures list_of_hides { IsWellSorted all_simple (list_of (Function (signal_of int) int)) → ⊥ }
    ensures signal { IsWellSorted all_simple (signal_of int) }
    ensures signal_of_signals { IsWellSorted all_simple (signal_of (signal_of int)) → ⊥ }
    ensures union { IsWellSorted all_simple (result_of int string) }
    ensures first { IsWellSorted all_simple (result_of (signal_of int) string) → ⊥ }
    ensures second { IsWellSorted all_simple (result_of int (signal_of string)) → ⊥ }
    ensures unit { IsWellSorted all_simple (tuple []) }
    ensures tuple { IsWellSorted all_simple (tuple (int ∷ int ∷ int ∷ [])) }
    ensures first_part { IsWellSorted all_simple (tuple (signal_of int ∷ int ∷ int ∷ [])) → ⊥ }
    ensures third_part { IsWellSorted all_simple (tuple (int ∷ int ∷ signal_of int ∷ [])) → ⊥ }
    ensures hiding_part { IsWellSorted all_simple (tuple (int ∷ Function (signal_of int) int ∷ [])) → ⊥ }
    ensures record { IsWellSorted all_simple (record_of (("x", int) ∷ ("y", int) ∷ [])) }
    ensures field { IsWellSorted all_simple (record_of (("x", signal_of int) ∷ ("y", int) ∷ [])) → ⊥ }
    ensures last_field { IsWellSorted all_simple (record_of (("x", int) ∷ ("y", signal_of int) ∷ [])) → ⊥ }
    ensures hidden_field { IsWellSorted all_simple (record_of (("x", int) ∷ ("x", signal_of int) ∷ [])) → ⊥ }
    ensures hiding_field { IsWellSorted all_simple (record_of (("x", Function (signal_of int) int) ∷ [])) → ⊥ }
    ensures rest { IsWellSorted all_signal (Record (row (("x", int) ∷ []) (Some 1))) }
    ensures opaque { IsWellSorted all_signal (Opaque 1 Plain) }
    ensures signal_part { IsWellSorted all_signal (list_of (Opaque 1 Plain)) → ⊥ }
    ensures flagged_part { IsWellSorted all_signal (list_of (Opaque 1 Both)) }
{}

/// Int, Char, String, lists and tuples of comparables, and opaque types with the flag are comparable.
pub fn some_types_are_comparable()
    ensures int { IsComparable int }
    ensures char { IsComparable char }
    ensures string { IsComparable string }
    ensures bool { IsComparable bool → ⊥ }
    ensures list { IsComparable (list_of (list_of int)) }
    ensures list_of_bools { IsComparable (list_of bool) → ⊥ }
    ensures maybe { IsComparable (maybe int) → ⊥ }
    ensures two_arguments { IsComparable (result_of int int) → ⊥ }
    ensures triple { IsComparable (tuple (int ∷ char ∷ string ∷ [])) }
    ensures first_part { IsComparable (tuple (bool ∷ char ∷ string ∷ [])) → ⊥ }
    ensures second_part { IsComparable (tuple (int ∷ bool ∷ string ∷ [])) → ⊥ }
    ensures third_part { IsComparable (tuple (int ∷ char ∷ bool ∷ [])) → ⊥ }
    ensures unit { IsComparable (tuple []) → ⊥ }
    ensures function { IsComparable (Function int int) → ⊥ }
    ensures record { IsComparable (record_of (("x", int) ∷ [])) → ⊥ }
    ensures opaque { IsComparable (Opaque 1 Comparable) }
    ensures both { IsComparable (Opaque 1 Both) }
    ensures other { IsComparable (Opaque 1 Appendable) → ⊥ }
    ensures plain { IsComparable (Opaque 1 Plain) → ⊥ }
{}

/// String, lists, and opaque types with the flag are appendable.
pub fn some_types_are_appendable()
    ensures string { IsAppendable string }
    ensures list { IsAppendable (list_of bool) }
    ensures int { IsAppendable int → ⊥ }
    ensures char { IsAppendable char → ⊥ }
    ensures maybe { IsAppendable (maybe string) → ⊥ }
    ensures pair { IsAppendable (tuple (string ∷ string ∷ [])) → ⊥ }
    ensures function { IsAppendable (Function int string) → ⊥ }
    ensures record { IsAppendable (record_of (("x", string) ∷ [])) → ⊥ }
    ensures opaque { IsAppendable (Opaque 1 Appendable) }
    ensures both { IsAppendable (Opaque 1 Both) }
    ensures other { IsAppendable (Opaque 1 Comparable) → ⊥ }
    ensures plain { IsAppendable (Opaque 1 Plain) → ⊥ }
{}

/// What a flag asks, and what two ask.
pub fn flags_ask_of_types()
    ensures plain { HasFlag Plain (Function int int) }
    ensures comparable { HasFlag Comparable int }
    ensures not_comparable { HasFlag Comparable bool → ⊥ }
    ensures appendable { HasFlag Appendable (list_of bool) }
    ensures not_appendable { HasFlag Appendable int → ⊥ }
    ensures both { HasFlag Both string }
    ensures one { HasFlag Both int → ⊥ }
    ensures other { HasFlag Both (list_of bool) → ⊥ }
    ensures neither { joined Plain Plain ≡ Plain }
    ensures first { joined Comparable Plain ≡ Comparable }
    ensures second { joined Plain Appendable ≡ Appendable }
    ensures same { joined Comparable Comparable ≡ Comparable }
    ensures same_other { joined Appendable Appendable ≡ Appendable }
    ensures joined { joined Comparable Appendable ≡ Both }
    ensures joined_other { joined Appendable Comparable ≡ Both }
    ensures more { joined Both Plain ≡ Both }
    ensures enough { joined Comparable Both ≡ Both }
    ensures enough_other { joined Appendable Both ≡ Both }
{}

/// The fields of a record stand in the order of their labels' bytes, wherever the record stands.
pub fn fields_stand_in_order()
    ensures in_order { InOrder (record_of (("x", int) ∷ ("y", int) ∷ [])) }
    ensures turned { InOrder (record_of (("y", int) ∷ ("x", int) ∷ [])) → ⊥ }
    ensures twice { InOrder (record_of (("x", int) ∷ ("x", char) ∷ [])) }
    ensures prefix { InOrder (record_of (("xy", int) ∷ ("x", int) ∷ [])) → ⊥ }
    ensures later { InOrder (record_of (("w", int) ∷ ("y", int) ∷ ("x", int) ∷ [])) → ⊥ }
    ensures in_list { InOrder (list_of (record_of (("y", int) ∷ ("x", int) ∷ []))) → ⊥ }
    ensures in_tuple { InOrder (tuple (int ∷ record_of (("y", int) ∷ ("x", int) ∷ []) ∷ [])) → ⊥ }
    ensures in_argument { InOrder (Function (record_of (("y", int) ∷ ("x", int) ∷ [])) int) → ⊥ }
    ensures in_result { InOrder (Function int (record_of (("y", int) ∷ ("x", int) ∷ []))) → ⊥ }
    ensures in_field { InOrder (record_of (("x", record_of (("y", int) ∷ ("x", int) ∷ [])) ∷ [])) → ⊥ }
{}

/// Of a label the newest field is read and removed, and a new one is put over it; other labels and the rest stay.
pub fn rows_have_scoped_labels()
    ensures over { extended (codes "x") int (row (("x", char) ∷ ("y", bool) ∷ []) (Some 1))
        ≡ row (("x", int) ∷ ("x", char) ∷ ("y", bool) ∷ []) (Some 1) }
    ensures between { extended (codes "x") int (row (("w", char) ∷ ("y", bool) ∷ []) None)
        ≡ row (("w", char) ∷ ("x", int) ∷ ("y", bool) ∷ []) None }
    ensures last { extended (codes "z") int (row (("w", char) ∷ []) None)
        ≡ row (("w", char) ∷ ("z", int) ∷ []) None }
    ensures types { types_of (codes "x")
        (row (("w", bool) ∷ ("x", int) ∷ ("x", char) ∷ ("y", bool) ∷ []) None)
        ≡ int ∷ char ∷ [] }
    ensures no_types { types_of (codes "z") (row (("x", int) ∷ []) None) ≡ [] }
    ensures rest { rest_of (row (("x", int) ∷ []) (Some 4)) ≡ Some 4 }
    ensures no_rest { rest_of (row (("x", int) ∷ []) None) ≡ None }
    ensures newest { newest (codes "x") (row (("w", bool) ∷ ("x", int) ∷ ("x", char) ∷ []) None)
        ≡ Some int }
    ensures no_field { newest (codes "y") (row (("x", int) ∷ []) (Some 1)) ≡ None }
    ensures removed { removed (codes "x") (row (("w", bool) ∷ ("x", int) ∷ ("x", char) ∷ []) (Some 1))
        ≡ Some (row (("w", bool) ∷ ("x", char) ∷ []) (Some 1)) }
    ensures nothing { removed (codes "y") (row (("x", int) ∷ []) (Some 1)) ≡ None }
{}

/// Which lists of fields lack a label, and which have none in common.
pub fn lists_of_fields_may_stand_apart()
    ensures lacks { Lacks (codes "x") ((codes "y", int) ∷ (codes "z", int) ∷ []) }
    ensures has { Lacks (codes "x") ((codes "y", int) ∷ (codes "x", int) ∷ []) → ⊥ }
    ensures apart { Apart ((codes "x", int) ∷ (codes "x", char) ∷ []) ((codes "y", int) ∷ (codes "z", int) ∷ []) }
    ensures common { Apart ((codes "x", int) ∷ (codes "z", int) ∷ []) ((codes "y", int) ∷ (codes "z", int) ∷ [])
        → ⊥ }
{}
