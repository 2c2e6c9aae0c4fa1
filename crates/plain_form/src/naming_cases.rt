//! Worked cases of names, lists and the groups of a `let`. The bodies are empty: what is stated holds of the definitions
//! by computation.

ghost use Rattle.std.specs.Prelude.{◌≡◌, Some, None, [], ◌∷◌, codes};
ghost use Rattle.elm_base.specs.declared.project.Thing.TheVariants as thing;
ghost use Rattle.typing_rules.specs.CorePatterns.{CorePattern};
ghost use Rattle.typing_rules.specs.Core.{Core, Local, Top, Constructor, Held, Lambda, Call, LetValue, LetFunctions, Fields, NoCoreFields, AndCoreField, NoCoreFunctions, AndCoreFunction};
ghost use Rattle.typing_rules.specs.Library.{int_};
ghost use Rattle.plain_form.specs.Naming.{thing_at, groups_at};
ghost use Rattle.plain_form.specs.PlainForm.{call, lambdas, listed, made_of, use_of, groups_before, no_core, patterns, Annotated, Named, Apart};
ghost use Rattle.plain_form.specs.NamedExamples.{at, names, point};

/// What stands at a place of a module is known by its meanings, and the groups of a block by the project's groups.
pub fn places_are_looked_up()
    ensures found { thing_at (codes "Main") (at 3)
        (record { «module» = codes "Main"; at = at 2; thing = thing.Local (at 1) }
        ∷ record { «module» = codes "Main"; at = at 3; thing = thing.Local (at 2) } ∷ [])
        ≡ Some (thing.Local (at 2)) }
    ensures elsewhere { thing_at (codes "Main") (at 3)
        (record { «module» = codes "Other"; at = at 3; thing = thing.Local (at 2) } ∷ []) ≡ None }
    ensures groups { groups_at (codes "Main") (at 3)
        (record { «module» = codes "Main"; block = at 3; members = at 5 ∷ [] }
        ∷ record { «module» = codes "Main"; block = at 4; members = at 6 ∷ [] }
        ∷ record { «module» = codes "Other"; block = at 3; members = at 7 ∷ [] }
        ∷ record { «module» = codes "Main"; block = at 3; members = at 8 ∷ at 9 ∷ [] } ∷ [])
        ≡ (at 5 ∷ []) ∷ (at 8 ∷ at 9 ∷ []) ∷ [] }
{}

/// A name's use, by what it stands for.
pub fn uses_are_what_they_stand_for()
    ensures local { use_of names (at 7) (names.thing (at 7)) ≡ Local 2 }
    ensures top { use_of names (at 8) (names.thing (at 8)) ≡ Top 5 }
    ensures constructor { use_of names (at 9) (names.thing (at 9))
        ≡ Constructor (codes "Maybe.Maybe") (codes "Just") 1 }
    ensures maker { use_of names (at 10) (names.thing (at 10))
        ≡ Lambda (CorePattern.Local 100)
        (Lambda (CorePattern.Local 101)
        (Held point.written
        (Fields
        (AndCoreField (codes "x") (Local 100) (AndCoreField (codes "y")
        (Local 101) NoCoreFields))))) }
    ensures nothing { use_of names (at 11) (names.thing (at 11)) ≡ no_core }
    ensures pattern { made_of names (names.thing (at 9)) (CorePattern.Local 3 ∷ [])
        ≡ CorePattern.Made (Some (codes "Maybe.Maybe")) (codes "Just") (patterns
        (CorePattern.Local 3 ∷ [])) }
    ensures no_pattern { made_of names (names.thing (at 10)) [] ≡ CorePattern.Made (Some []) []
        (patterns []) }
{}

/// Arguments and parameters stand one behind the other, and a list pattern ends in the empty list.
pub fn lists_are_nested()
    ensures call { call (Top 1) (Top 2 ∷ Top 3 ∷ []) ≡ Call (Call (Top 1) (Top 2)) (Top 3) }
    ensures lambda { lambdas (CorePattern.Local 1 ∷ CorePattern.Local 2 ∷ []) (Local 1)
        ≡ Lambda (CorePattern.Local 1) (Lambda (CorePattern.Local 2) (Local 1)) }
    ensures list { listed (CorePattern.Local 1 ∷ CorePattern.Local 2 ∷ [])
        ≡ CorePattern.Cons (CorePattern.Local 1) (CorePattern.Cons
        (CorePattern.Local 2) CorePattern.Nil) }
{}

/// A `let` is its groups in order: a value, a pattern's value, or functions, each as it is annotated.
pub fn groups_stand_in_order()
    ensures both { groups_before names ((at 21 ∷ []) ∷ (at 22 ∷ at 23 ∷ []) ∷ [])
        (Named (at 22) (codes "f") (Lambda (CorePattern.Local 30) (Local 23))
        ∷ Annotated (codes "g") int_
        ∷ Named (at 23) (codes "g") (Lambda (CorePattern.Local 31) (Local 22))
        ∷ Annotated (codes "x") int_
        ∷ Named (at 21) (codes "x") (Top 1) ∷ []) (Local 21)
        ≡ LetValue (CorePattern.Local 21) (Held int_ (Top 1))
        (LetFunctions
        (AndCoreFunction 22 None (CorePattern.Local 30) (Local 23)
        (AndCoreFunction 23 (Some int_) (CorePattern.Local 31) (Local 22) NoCoreFunctions))
        (Local 21)) }
    ensures apart { groups_before names ((at 21 ∷ []) ∷ [])
        (Apart (at 21) (CorePattern.Tuple (patterns [])) (Top 1) ∷ []) (Local 3)
        ≡ LetValue (CorePattern.Tuple (patterns [])) (Top 1) (Local 3) }
{}
