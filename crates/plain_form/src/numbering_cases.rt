//! Worked cases of numbers of binders. The bodies are empty: what is stated holds of the definitions by computation.

ghost use Rattle.std.specs.Prelude.{◌≡◌, true, false, [], ◌∷◌};
ghost use Rattle.plain_form.specs.Numbering.{comes_before, numbered, all, one, further};
ghost use Rattle.plain_form.specs.NamedExamples.{at, place, names};

/// Places are ordered by line, then by column.
pub fn places_are_ordered()
    ensures line { comes_before (place 1 9) (place 2 3) ≡ true }
    ensures column { comes_before (place 2 3) (place 2 4) ≡ true }
    ensures same { comes_before (place 2 3) (place 2 3) ≡ false }
    ensures after { comes_before (place 3 1) (place 2 4) ≡ false }
    ensures behind { comes_before (place 2 4) (place 2 3) ≡ false }
{}

/// In `f b a = (,) (.x b) a` the parameters are 0 and 1, the tuple maker's binders 2 and 3, and the field function's 4.
pub fn binders_are_numbered_by_place()
    ensures first { (numbered names (all (one (at 5) ∷ one (at 3) ∷ further (at 14) 1 ∷ further
        (at 9) 2 ∷ []))).number (at 3) ≡ 0 }
    ensures second { (numbered names (all (one (at 5) ∷ one (at 3) ∷ further (at 14) 1 ∷ further
        (at 9) 2 ∷ []))).number (at 5) ≡ 1 }
    ensures maker { (numbered names (all (one (at 5) ∷ one (at 3) ∷ further (at 14) 1 ∷ further
        (at 9) 2 ∷ []))).own (at 9) 0 ≡ 2 }
    ensures more { (numbered names (all (one (at 5) ∷ one (at 3) ∷ further (at 14) 1 ∷ further
        (at 9) 2 ∷ []))).own (at 9) 1 ≡ 3 }
    ensures field { (numbered names (all (one (at 5) ∷ one (at 3) ∷ further (at 14) 1 ∷ further
        (at 9) 2 ∷ []))).own (at 14) 0 ≡ 4 }
{}
