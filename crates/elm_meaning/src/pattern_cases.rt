//! Worked cases of patterns: which values each form fits, and what its names stand for then. The bodies are empty: what
//! is stated holds of the definitions by computation.

ghost use Rattle.std.specs.Prelude.{◌≡◌, Some, None, [], ◌∷◌, codes};
ghost use Rattle.elm_base.specs.declared.term.Literal.TheVariants as literal;
ghost use Rattle.elm_meaning.specs.Patterns.{Pattern, patterns_of};
ghost use Rattle.elm_meaning.specs.Values.{Unit};
ghost use Rattle.elm_meaning.specs.Matching.{matching, names_of};
ghost use Rattle.elm_meaning.specs.Spelling.{int, minus, char, text, list, tuple, made, record_of, bytes, exactly};

/// Each literal fits itself alone.
pub fn literals_fit_themselves()
    ensures int { matching (exactly 7) (int 7) ≡ Some [] }
    ensures other_int { matching (exactly 7) (minus 7) ≡ None }
    ensures char { matching (Pattern.Literal (literal.Char 97)) (char "a") ≡ Some [] }
    ensures other_char { matching (Pattern.Literal (literal.Char 97)) (char "b") ≡ None }
    ensures code { matching (Pattern.Literal (literal.Char 97)) (int 97) ≡ None }
    ensures text { matching (Pattern.Literal (literal.Text (bytes "ab"))) (text "ab") ≡ Some [] }
    ensures other_text { matching (Pattern.Literal (literal.Text (bytes "ab"))) (text "a") ≡ None }
    ensures unit { matching (Pattern.Literal literal.Unit) Unit ≡ Some [] }
    ensures no_unit { matching (Pattern.Literal literal.Unit) (int 0) ≡ None }
{}

/// A name and `_` fit any value; `p as x` fits what p fits, and its name is the whole.
pub fn names_fit_any_value()
    ensures anything { matching Pattern.Anything (int 7) ≡ Some [] }
    ensures name { matching (Pattern.Local 3) (int 7) ≡ Some ((3, int 7) ∷ []) }
    ensures whole { matching (Pattern.Named (Pattern.Cons (Pattern.Local 3) Pattern.Anything) 5)
        (list (int 7 ∷ []))
        ≡ Some ((3, int 7) ∷ (5, list (int 7 ∷ [])) ∷ []) }
    ensures whole_of_none { matching (Pattern.Named Pattern.Nil 5) (list (int 7 ∷ [])) ≡ None }
{}

/// The empty list, and an element in front of a list.
pub fn lists_fit_their_patterns()
    ensures nil { matching Pattern.Nil (list []) ≡ Some [] }
    ensures no_nil { matching Pattern.Nil (list (int 7 ∷ [])) ≡ None }
    ensures cons { matching (Pattern.Cons (Pattern.Local 3) (Pattern.Local 4))
        (list (int 7 ∷ int 8 ∷ []))
        ≡ Some ((3, int 7) ∷ (4, list (int 8 ∷ [])) ∷ []) }
    ensures no_cons { matching (Pattern.Cons (Pattern.Local 3) (Pattern.Local 4)) (list []) ≡ None }
    ensures head { matching (Pattern.Cons (exactly 1) Pattern.Anything) (list (int 7 ∷ [])) ≡ None }
    ensures tail { matching (Pattern.Cons Pattern.Anything Pattern.Nil) (list (int 7 ∷ int 8 ∷ []))
        ≡ None }
{}

/// A constructor of this name with as many arguments, each fitted; a tuple of as many parts, each fitted.
pub fn parts_fit_their_patterns()
    ensures made { matching
        (Pattern.Made (codes "P") (patterns_of (Pattern.Local 3 ∷ Pattern.Local 4 ∷ [])))
        (made "P" (int 7 ∷ int 8 ∷ []))
        ≡ Some ((3, int 7) ∷ (4, int 8) ∷ []) }
    ensures other { matching (Pattern.Made (codes "Just") (patterns_of (Pattern.Local 3 ∷ [])))
        (made "Ok" (int 7 ∷ []))
        ≡ None }
    ensures fewer { matching (Pattern.Made (codes "P") (patterns_of (Pattern.Local 3 ∷ [])))
        (made "P" (int 7 ∷ int 8 ∷ []))
        ≡ None }
    ensures more { matching (Pattern.Made (codes "P") (patterns_of (Pattern.Local 3 ∷ []))) (made "P" [])
        ≡ None }
    ensures argument { matching (Pattern.Made (codes "Just") (patterns_of (exactly 1 ∷ [])))
        (made "Just" (int 7 ∷ []))
        ≡ None }
    ensures alone { matching (Pattern.Made (codes "True") (patterns_of [])) (made "True" [])
        ≡ Some [] }
    ensures tuple { matching (Pattern.Tuple (patterns_of (Pattern.Local 3 ∷ Pattern.Local 4 ∷ [])))
        (tuple (int 7 ∷ int 8 ∷ []))
        ≡ Some ((3, int 7) ∷ (4, int 8) ∷ []) }
    ensures part { matching (Pattern.Tuple (patterns_of (Pattern.Anything ∷ exactly 1 ∷ [])))
        (tuple (int 1 ∷ int 8 ∷ []))
        ≡ None }
    ensures parts { matching (Pattern.Tuple (patterns_of (Pattern.Anything ∷ Pattern.Anything ∷ [])))
        (tuple (int 7 ∷ int 8 ∷ int 9 ∷ []))
        ≡ None }
    ensures kind { matching (Pattern.Tuple (patterns_of [])) Unit ≡ None }
{}

/// Of each label the newest field; a label that isn't there doesn't fit.
pub fn labels_fit_the_newest_fields()
    ensures labels { matching (Pattern.Fields ((codes "y", 3) ∷ (codes "x", 4) ∷ []))
        (record_of (("x", int 7) ∷ ("y", int 8) ∷ []))
        ≡ Some ((3, int 8) ∷ (4, int 7) ∷ []) }
    ensures newest { matching (Pattern.Fields ((codes "x", 3) ∷ []))
        (record_of (("x", int 7) ∷ ("x", int 8) ∷ []))
        ≡ Some ((3, int 7) ∷ []) }
    ensures missing { matching (Pattern.Fields ((codes "z", 3) ∷ [])) (record_of (("x", int 7) ∷ []))
        ≡ None }
    ensures kind { matching (Pattern.Fields []) (tuple []) ≡ None }
{}

/// The names that a pattern binds.
pub fn patterns_have_names()
    ensures none { names_of Pattern.Anything ≡ [] }
    ensures name { names_of (Pattern.Local 3) ≡ 3 ∷ [] }
    ensures literal { names_of (Pattern.Literal literal.Unit) ≡ [] }
    ensures nil { names_of Pattern.Nil ≡ [] }
    ensures cons { names_of (Pattern.Cons (Pattern.Local 3) (Pattern.Local 4)) ≡ 3 ∷ 4 ∷ [] }
    ensures made { names_of
        (Pattern.Made (codes "P") (patterns_of (Pattern.Local 3 ∷ Pattern.Local 4 ∷ [])))
        ≡ 3 ∷ 4 ∷ [] }
    ensures tuple { names_of (Pattern.Tuple (patterns_of (Pattern.Local 3 ∷ Pattern.Local 4 ∷ [])))
        ≡ 3 ∷ 4 ∷ [] }
    ensures labels { names_of (Pattern.Fields ((codes "y", 3) ∷ (codes "x", 4) ∷ [])) ≡ 3 ∷ 4 ∷ [] }
    ensures whole { names_of (Pattern.Named (Pattern.Local 3) 5) ≡ 3 ∷ 5 ∷ [] }
{}
