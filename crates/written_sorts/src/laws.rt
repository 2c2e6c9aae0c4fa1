//! Laws of the definitions. The bodies are empty: what is stated holds of the definitions.
ghost use Rattle.std.specs.Prelude.{◌≡◌, ◌↔◌, ℕ, true, false, List, [], ◌∷◌};
ghost use Rattle.typing_rules.specs.Library.{a_, b_, int_, list_, maybe_, signal_, variable, from, writtens};
ghost use Rattle.typing_rules.specs.WrittenTypes.{Written, Arrow, Tuple};
ghost use Rattle.written_sorts.specs.Sorting.{HasWellSorted, bars_hold};
ghost use Rattle.written_sorts.specs.Marks.{Marks, CanBeSorted, holds};
ghost use Rattle.written_sorts.specs.Forced.{AllMarked, AreForced, forced, marks_of};
ghost use Rattle.written_sorts.specs.Spelled.{none, only, over, record_of};

/// Where each variable before a bar is free, some instance of a written type is well sorted exactly where some choice of sorts
/// for its variables makes it well sorted.
pub fn sorts_of_variables_decide()
    ensures { (written : Written) → bars_hold written ≡ true → HasWellSorted written ↔ CanBeSorted written }
{}

/// Each of these types makes sense, by these sorts of its variables.
pub fn types_that_make_sense()
    ensures identity { holds none (Arrow a_ a_) ≡ true }
    ensures signals { holds (only "a") (Arrow a_ a_) ≡ true }
    ensures signal { holds none (signal_ int_) ≡ true }
    ensures from_simple { holds none (Arrow int_ (signal_ int_)) ≡ true }
    ensures result { holds (only "a") (Arrow (signal_ int_) a_) ≡ true }
    ensures map { holds none (from (Arrow a_ b_ ∷ signal_ a_ ∷ []) (signal_ b_)) ≡ true }
    ensures function_in_list { holds none (list_ (Arrow int_ int_)) ≡ true }
    ensures flagged { holds none (Arrow (variable "comparable") int_) ≡ true }
    ensures closed_record { holds none (record_of int_) ≡ true }
    ensures open_record { holds none (over "a" int_) ≡ true }
    ensures bar { bars_hold (Arrow a_ (over "a" int_)) ≡ true }
    ensures bar_in_tuple { bars_hold (Tuple (writtens (int_ ∷ over "b" int_ ∷ []))) ≡ true }
{}

/// No sorts of their variables make these types well sorted, or something that isn't free stands before a bar.
pub fn types_without_sense()
    ensures signal_of_signal { (marks : Marks) → holds marks (signal_ (signal_ int_)) ≡ false }
    ensures simple_result { (marks : Marks) → holds marks (Arrow (signal_ int_) int_) ≡ false }
    ensures in_tuple { (marks : Marks)
        → holds marks (Tuple (writtens (signal_ int_ ∷ int_ ∷ []))) ≡ false }
    ensures in_record { (marks : Marks) → holds marks (record_of (signal_ int_)) ≡ false }
    ensures in_union { (marks : Marks) → holds marks (maybe_ (signal_ int_)) ≡ false }
    ensures function_of_signals { (marks : Marks)
        → holds marks (list_ (Arrow int_ (signal_ int_))) ≡ false }
    ensures signal_for_simple { holds none (Arrow (signal_ int_) a_) ≡ false }
    ensures signal_in_list { holds (only "a") (list_ a_) ≡ false }
    ensures signal_before_bar { holds (only "a") (over "a" int_) ≡ false }
    ensures flagged { holds (only "comparable") (variable "comparable") ≡ false }
    ensures number { holds (only "number") (variable "number") ≡ false }
    ensures flagged_before_bar { bars_hold (over "comparable" int_) ≡ false }
    ensures joined_before_bar { bars_hold (list_ (over "compappend2" int_)) ≡ false }
    ensures number_before_bar { bars_hold (over "number" int_) ≡ false }
{}

/// Variables that have to be of sort signal: those that are forced by such ones have to be, too; and where no further one is
/// forced, they alone decide whether any sorts make the type well sorted.
pub fn forced_variables_decide()
    ensures further { (written : Written) (names : List (List ℕ)) → AreForced written names
        → AreForced written (forced (marks_of names) written) }
    ensures decide { (written : Written) (names : List (List ℕ)) → AreForced written names
        → AllMarked (marks_of names) (forced (marks_of names) written)
        → CanBeSorted written ↔ (holds (marks_of names) written ≡ true) }
{}
