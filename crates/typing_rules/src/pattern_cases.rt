//! Worked cases of patterns and constructors. The bodies are empty: what is stated holds of the definitions.

ghost use Rattle.std.specs.Prelude.{◌≡◌, ℕ, Some, None, [], ◌∷◌, codes};
ghost use Rattle.elm_typing.specs.Ground.{Ground};
ghost use Rattle.elm_typing.specs.Names.{list_of};
ghost use Rattle.elm_typing.specs.Spelling.{int, string, bool, maybe, result_of, tuple, record_of};
ghost use Rattle.typing_rules.specs.Library.{library_unions};
ghost use Rattle.typing_rules.specs.Unions.{ConstructorGives};
ghost use Rattle.typing_rules.specs.CorePatterns.{CorePattern, Fits};
ghost use Rattle.typing_rules.specs.TypingExamples.{boxed, boxes, functions, name, patterns, made};

/// A pattern fits the types of its shape, and its names have the types at their places.
pub fn patterns_fit_types()
    ensures name { Fits library_unions (name 3) string ((3, string) ∷ []) }
    ensures anything { Fits library_unions CorePattern.Anything string [] }
    ensures other { Fits library_unions (name 3) string ((3, int) ∷ []) → ⊥ }
    ensures just { Fits library_unions (made "Just" (name 3 ∷ [])) (maybe int) ((3, int) ∷ []) }
    ensures nothing { Fits library_unions (made "Nothing" []) (maybe int) [] }
    ensures many { Fits library_unions (made "Just" (name 3 ∷ name 4 ∷ [])) (maybe int)
        ((3, int) ∷ (4, int) ∷ []) → ⊥ }
    ensures union { Fits library_unions (made "Just" (name 3 ∷ [])) (list_of int) ((3, int) ∷
        []) → ⊥ }
    ensures unknown { Fits library_unions (made "Some" (name 3 ∷ [])) (maybe int) ((3, int) ∷
        []) → ⊥ }
    ensures err { Fits library_unions (made "Err" (name 3 ∷ [])) (result_of string int)
        ((3, string) ∷ []) }
    ensures ok { Fits library_unions (made "Ok" (name 3 ∷ [])) (result_of string int)
        ((3, string) ∷ []) → ⊥ }
    ensures pair { Fits library_unions (CorePattern.Tuple (patterns (name 3 ∷ name 4 ∷ [])))
        (tuple (int ∷ string ∷ []))
        ((3, int) ∷ (4, string) ∷ []) }
    ensures short { Fits library_unions (CorePattern.Tuple (patterns (name 3 ∷ []))) (tuple
        (int ∷ string ∷ []))
        ((3, int) ∷ []) → ⊥ }
    ensures cons { Fits library_unions (CorePattern.Cons (name 3) (name 4)) (list_of int)
        ((3, int) ∷ (4, list_of int) ∷ []) }
    ensures nil { Fits library_unions CorePattern.Nil (maybe int) [] → ⊥ }
    ensures labels { Fits library_unions (CorePattern.Fields ((codes "x", 3) ∷ []))
        (record_of (("x", string) ∷ ("x", int) ∷ [])) ((3, string) ∷ []) }
    ensures hidden { Fits library_unions (CorePattern.Fields ((codes "x", 3) ∷ []))
        (record_of (("x", string) ∷ ("x", int) ∷ [])) ((3, int) ∷ []) → ⊥ }
    ensures missing { Fits library_unions (CorePattern.Fields ((codes "y", 3) ∷ []))
        (record_of (("x", string) ∷ [])) ((3, string) ∷ []) → ⊥ }
    ensures whole { Fits library_unions (CorePattern.Named (made "Just" (name 3 ∷ [])) 4)
        (maybe int)
        ((3, int) ∷ (4, maybe int) ∷ []) }
{}

/// A constructor is a function that makes a value of its union, and `::` one that makes a list. What stands before a bar
/// in an argument is a record.
pub fn constructors_have_types()
    ensures just { ConstructorGives library_unions None (codes "Just") 1 (functions (int ∷ [])
        (maybe int)) }
    ensures known { ConstructorGives library_unions (Some (codes "Maybe.Maybe")) (codes "Just") 1
        (functions (int ∷ []) (maybe int)) }
    ensures elsewhere { ConstructorGives library_unions (Some (codes "Result.Result"))
        (codes "Just") 1
        (functions (int ∷ []) (maybe int)) → ⊥ }
    ensures taken { ConstructorGives library_unions None (codes "Just") 2 (functions (int ∷ [])
        (maybe int)) → ⊥ }
    ensures other { ConstructorGives library_unions None (codes "Just") 1 (functions (int ∷ [])
        (maybe bool)) → ⊥ }
    ensures boxed { ConstructorGives boxes None (codes "T") 1
        (functions (record_of (("x", int) ∷ []) ∷ []) (boxed (record_of []))) }
    ensures unboxed { ConstructorGives boxes None (codes "T") 1
        (functions (record_of (("x", int) ∷ []) ∷ []) (boxed int)) → ⊥ }
    ensures truth { ConstructorGives library_unions None (codes "True") 0 bool }
    ensures cons { ConstructorGives library_unions None (codes "::") 2 (functions (int ∷
        list_of int ∷ []) (list_of int)) }
    ensures mixed { ConstructorGives library_unions None (codes "::") 2
        (functions (string ∷ list_of int ∷ []) (list_of int)) → ⊥ }
{}
