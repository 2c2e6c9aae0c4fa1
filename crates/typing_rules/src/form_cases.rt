//! Worked cases of the other forms. The bodies are empty: what is stated holds of the definitions.

ghost use Rattle.std.specs.Prelude.{◌≡◌, [], ◌∷◌, codes};
ghost use Rattle.elm_base.specs.declared.native.TheConstants.{NEGATE};
ghost use Rattle.elm_typing.specs.Ground.{Ground};
ghost use Rattle.elm_typing.specs.Names.{list_of, signal_of};
ghost use Rattle.elm_typing.specs.Spelling.{int, string, bool, tuple};
ghost use Rattle.typing_rules.specs.Library.{from, int_};
ghost use Rattle.typing_rules.specs.CorePatterns.{CorePattern};
ghost use Rattle.typing_rules.specs.Core.{Core, Local, Top, Input, Native, Held, Call, If, Guards, Case, ListOf, Range};
ghost use Rattle.typing_rules.specs.TypingExamples.{number, text, truth, cores, lambda, branches, guarded, exactly_one, Has, HasNone};

/// Conditions have Bool, and all branches the type of the whole.
pub fn branches_have_one_type()
    ensures chosen { Has (If truth (number 1) (number 2)) int }
    ensures condition { HasNone (If (number 1) (number 1) (number 2)) }
    ensures other { HasNone (If truth (number 1) (text "a")) }
    ensures guarded { Has (Guards (guarded ((truth, number 1) ∷ (truth, number 2) ∷ []))) int }
    ensures guard { HasNone (Guards (guarded ((truth, number 1) ∷ (text "a", number 2) ∷ []))) }
    ensures last { HasNone (Guards (guarded ((truth, number 1) ∷ (truth, text "a") ∷ []))) }
    ensures cases { Has (Case (number 1) (branches ((exactly_one, text "a") ∷
        (CorePattern.Anything, text "b") ∷ []))) string }
    ensures branch { HasNone (Case (number 1) (branches ((exactly_one, text "a") ∷
        (CorePattern.Anything, number 2) ∷ []))) }
    ensures pattern { HasNone (Case (text "a") (branches ((exactly_one, text "a") ∷ []))) }
{}

/// The elements of a list have one type, and the ends of a range are Ints.
pub fn elements_have_one_type()
    ensures list { Has (ListOf (cores (number 1 ∷ number 2 ∷ []))) (list_of int) }
    ensures mixed { HasNone (ListOf (cores (number 1 ∷ text "a" ∷ []))) }
    ensures range { Has (Range (number 1) (number 2)) (list_of int) }
    ensures low { HasNone (Range (text "a") (number 2)) }
    ensures high { HasNone (Range (number 1) (text "a")) }
{}

/// A name has the types that its surroundings give it, and an argument has the type that its function takes.
pub fn names_and_calls_have_types()
    ensures same { Has (lambda 0 (Local 0)) (Ground.Function int int) }
    ensures other { Has (lambda 0 (Local 0)) (Ground.Function int string) → ⊥ }
    ensures free { HasNone (Local 0) }
    ensures top { HasNone (Top 77) }
    ensures device { Has (Input 2) (signal_of (tuple [])) }
    ensures input { HasNone (Input 77) }
    ensures called { Has (Call (Native NEGATE) (number 1)) int }
    ensures argument { HasNone (Call (Native NEGATE) (text "a")) }
    ensures function { HasNone (Call (number 1) (number 2)) }
{}

/// What is held to a written type has only its instances.
pub fn makers_are_held_to_their_types()
    ensures held { Has (Held (from (int_ ∷ []) int_) (lambda 0 (Local 0)))
        (Ground.Function int int) }
    ensures narrow { Has (Held (from (int_ ∷ []) int_) (lambda 0 (Local 0)))
        (Ground.Function string string) → ⊥ }
    ensures wrong { HasNone (Held int_ (lambda 0 (Local 0))) }
{}
