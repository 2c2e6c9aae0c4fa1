//! Worked cases of what is missing. The bodies are empty: what is stated holds of the definitions by computation.

ghost use Rattle.std.specs.Prelude.{◌≡◌, true, false, [], ◌∷◌, Some, None};
ghost use Rattle.case_check.specs.Shapes.{Anything, Literal, Hole, OtherLiteral};
ghost use Rattle.case_check.specs.Missing.{IsMissing, clashes};
ghost use Rattle.case_check.specs.Asked.{tuple_of, cons_of, list_of};
ghost use Rattle.case_check.specs.Search.{missing_of};
ghost use Rattle.case_check.specs.Examples.{yes, no_, just, nothing, made};

/// A skeleton clashes with a pattern that asks for another constructor, or for a literal where it has another one. A hole
/// clashes with nothing, and a variable with no skeleton.
pub fn skeletons_clash()
    ensures other { clashes (made "True" []) no_ ≡ true }
    ensures same { clashes (made "True" []) yes ≡ false }
    ensures hole { clashes Hole yes ≡ false }
    ensures anything { clashes (made "True" []) Anything ≡ false }
    ensures literal { clashes OtherLiteral Literal ≡ true }
    ensures hole_of_a_literal { clashes Hole Literal ≡ false }
    ensures inside { clashes (made "Just" (made "True" [] ∷ [])) (just no_) ≡ true }
    ensures same_inside { clashes (made "Just" (made "True" [] ∷ [])) (just yes) ≡ false }
    ensures second { clashes (made "()" (Hole ∷ made "True" [] ∷ []))
        (tuple_of (yes ∷ no_ ∷ [])) ≡ true }
{}

/// What is missing is of the unions that stand in the patterns at its places, and clashes with each.
pub fn skeletons_are_missing()
    ensures other { IsMissing (made "False" []) (yes ∷ []) }
    ensures matched { IsMissing (made "True" []) (yes ∷ []) → ⊥ }
    ensures of_no_union { IsMissing (made "Perhaps" []) (yes ∷ []) → ⊥ }
    ensures of_too_many { IsMissing (made "False" (Hole ∷ [])) (yes ∷ []) → ⊥ }
    ensures hole { IsMissing Hole (yes ∷ []) → ⊥ }
    ensures nothing_is_asked { IsMissing Hole [] }
    ensures anything { IsMissing Hole (Anything ∷ []) → ⊥ }
    ensures second_column { IsMissing (made "()" (made "False" [] ∷ made "True" [] ∷ []))
        (tuple_of (yes ∷ Anything ∷ []) ∷ tuple_of (Anything ∷ no_ ∷ []) ∷ []) }
    ensures one_column { IsMissing (made "()" (made "False" [] ∷ Hole ∷ []))
        (tuple_of (yes ∷ Anything ∷ []) ∷ tuple_of (Anything ∷ no_ ∷ []) ∷ []) → ⊥ }
{}

/// What the search finds, and where it finds nothing.
pub fn cases_are_sought()
    ensures no_patterns { missing_of [] ≡ Some Hole }
    ensures variable { missing_of (Anything ∷ []) ≡ None }
    ensures one_of_two { missing_of (yes ∷ []) ≡ Some (made "False" []) }
    ensures two_of_two { missing_of (yes ∷ no_ ∷ []) ≡ None }
    ensures redundant { missing_of (yes ∷ yes ∷ no_ ∷ yes ∷ []) ≡ None }
    ensures literal { missing_of (Literal ∷ Literal ∷ []) ≡ Some OtherLiteral }
    ensures literal_or_any { missing_of (Literal ∷ Anything ∷ []) ≡ None }
    ensures unit { missing_of (tuple_of [] ∷ []) ≡ None }
    ensures two_columns { missing_of (tuple_of (yes ∷ Anything ∷ []) ∷ tuple_of (Anything ∷ no_ ∷ [])
        ∷ []) ≡ Some (made "()" (made "False" [] ∷ made "True" [] ∷ [])) }
    ensures a_literal_beside { missing_of (tuple_of (Literal ∷ yes ∷ []) ∷ tuple_of (Anything ∷ no_
        ∷ []) ∷ []) ≡ Some (made "()" (OtherLiteral ∷ made "True" [] ∷ [])) }
    ensures lists_up_to_one { missing_of (nothing ∷ just (list_of []) ∷ just (cons_of Anything
        (list_of [])) ∷ []) ≡ Some (made "Just" (made "::" (Hole ∷ made "::" (Hole ∷ Hole ∷ [])
        ∷ []) ∷ [])) }
    ensures lists_from_two { missing_of (list_of [] ∷ list_of (Anything ∷ []) ∷ cons_of Anything
        (cons_of Anything Anything) ∷ []) ≡ None }
    ensures nested { missing_of (just (just Anything) ∷ nothing ∷ [])
        ≡ Some (made "Just" (made "Nothing" [] ∷ [])) }
{}
