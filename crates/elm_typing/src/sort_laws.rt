//! Laws of the sorts. The bodies are empty: what is stated holds of the definitions.

ghost use Rattle.std.specs.Prelude.{◌≡◌, ◌≢◌, ℕ};
ghost use Rattle.elm_typing.specs.declared.flag.Flag.{Flag};
ghost use Rattle.elm_typing.specs.declared.flag.Flag.TheVariants.{Plain, Comparable};
ghost use Rattle.elm_typing.specs.Flags.{HasFlag};
ghost use Rattle.elm_typing.specs.Ground.{Ground, Row, Named, Function, Tuple, Record, Opaque, NoGrounds, AndGround};
ghost use Rattle.elm_typing.specs.Names.{int_name, list_of, signal_of};
ghost use Rattle.elm_typing.specs.Sorts.{Sort, Simple, Signal, IsWellSorted, sort_of};

/// The sort of a function is that of its last result; signals are signal, opaque types without flag as chosen, and
/// everything else is simple.
pub fn sorts_of_types()
    ensures signal { (chosen : ℕ → Sort) (t : Ground) → sort_of chosen (signal_of t) ≡ Signal }
    ensures function { (chosen : ℕ → Sort) (a b c : Ground) → sort_of chosen (Function a (Function b c))
        ≡ sort_of chosen c }
    ensures opaque { (chosen : ℕ → Sort) (number : ℕ) → sort_of chosen (Opaque number Plain)
        ≡ chosen number }
    ensures flagged { (chosen : ℕ → Sort) (number : ℕ) → sort_of chosen (Opaque number Comparable)
        ≡ Simple }
    ensures record { (chosen : ℕ → Sort) (row : Row) → sort_of chosen (Record row) ≡ Simple }
    ensures list { (chosen : ℕ → Sort) (t : Ground) → sort_of chosen (list_of t) ≡ Simple }
{}

/// What has a flag is simple.
pub fn flagged_types_are_simple()
    ensures { (chosen : ℕ → Sort) (flag : Flag) (t : Ground) → flag ≢ Plain → HasFlag flag t → sort_of
        chosen t
        ≡ Simple }
{}

/// A function may lift values to signals, as `Signal.map` does, but not hide a signal; no signal stands in a list.
pub fn well_sorted_types()
    ensures map { (chosen : ℕ → Sort) → chosen 0 ≡ Simple → chosen 1
        ≡ Simple → IsWellSorted chosen
        (Function (Function (Opaque 0 Plain) (Opaque 1 Plain))
        (Function (signal_of (Opaque 0 Plain)) (signal_of (Opaque 1 Plain)))) }
    ensures constant { (chosen : ℕ → Sort) → IsWellSorted chosen
        (Function (Named int_name NoGrounds) (signal_of (Named int_name NoGrounds))) }
    ensures hidden { (chosen : ℕ → Sort) → IsWellSorted chosen
        (Function (signal_of (Named int_name NoGrounds)) (Named int_name NoGrounds)) → ⊥ }
    ensures list { (chosen : ℕ → Sort) (t : Ground) → IsWellSorted chosen (list_of (signal_of t)) → ⊥ }
    ensures nested { (chosen : ℕ → Sort) (t : Ground) → IsWellSorted chosen (signal_of (signal_of t)) → ⊥ }
{}
