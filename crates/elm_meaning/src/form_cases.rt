//! Worked cases of branches, `let`, lists, tuples and ranges. The bodies are empty: what is stated holds of the
//! definitions by computation.

ghost use Rattle.std.specs.Prelude.{◌≡◌, true, false, [], ◌∷◌};
ghost use Rattle.elm_base.specs.declared.native.TheConstants.{SUBTRACT, EQUAL, DIVIDE};
ghost use Rattle.elm_base.specs.declared.term.RunFault.TheVariants.{NoMatch, NoBranch, DivideByZero};
ghost use Rattle.elm_meaning.specs.Answers.{truth};
ghost use Rattle.elm_meaning.specs.Patterns.{Pattern, patterns_of};
ghost use Rattle.elm_meaning.specs.Values.{Done, Local, Lambda, Call, If, LetValue, LetFunctions, Range, NoTree};
ghost use Rattle.elm_meaning.specs.Spelling.{int, minus, text, list, tuple, made, native, native_of, call, exactly, noted, watch, watched, tuple_term, list_term, guards, case_of, functions, run, leaves, gives, fails, out_of_fuel, no_rule, noting};

/// The condition first, and of the branches one alone.
pub fn one_branch_is_evaluated()
    ensures first { run (If (Done (truth true)) (Done (int 1)) NoTree) 3 ≡ leaves 3 (int 1) }
    ensures second { run (If (Done (truth false)) NoTree (Done (int 2))) 3 ≡ leaves 3 (int 2) }
    ensures order { run (If (watch "c" (Done (truth true))) (noted "a" 1) (noted "b" 2)) 9
        ≡ noting (watched "c" "True" ∷ watched "a" "1" ∷ []) (gives (int 1)) }
    ensures other { run (If (watch "c" (Done (truth false))) (noted "a" 1) (noted "b" 2)) 10
        ≡ noting (watched "c" "False" ∷ watched "b" "2" ∷ []) (gives (int 2)) }
    ensures no_condition { run (If (Done (int 1)) (Done (int 1)) (Done (int 2))) 3 ≡ no_rule 3 }
    ensures constructor { run (If (Done (made "Just" [])) (Done (int 1)) (Done (int 2))) 3
        ≡ no_rule 3 }
    ensures arguments { run (If (Done (made "True" (int 1 ∷ []))) (Done (int 1)) (Done (int 2))) 3
        ≡ no_rule 3 }
{}

/// Conditions one after the other, until one holds.
pub fn the_first_true_condition_is_taken()
    ensures order { run
        (guards
        ((watch "a" (Done (truth false)), noted "b" 1) ∷
        (watch "c" (Done (truth true)), noted "d" 2) ∷
        (watch "e" (Done (truth true)), noted "f" 3) ∷ [])) 16
        ≡ noting (watched "a" "False" ∷ watched "c" "True" ∷ watched "d" "2" ∷ []) (gives (int 2)) }
    ensures none { run (guards ((Done (truth false), Done (int 1)) ∷ [])) 5 ≡ fails NoBranch 5 }
    ensures no_condition { run (guards ((Done (int 1), Done (int 1)) ∷ [])) 5 ≡ no_rule 5 }
{}

/// The scrutinee once, then the branches in order, until one fits. A branch's names hide others.
pub fn the_first_branch_that_fits_is_taken()
    ensures order { run
        (case_of (noted "s" 7)
        ((exactly 1, noted "a" 1) ∷ (Pattern.Local 0, noted "b" 2) ∷
        (Pattern.Anything, noted "c" 3) ∷ [])) 6
        ≡ noting (watched "s" "7" ∷ watched "b" "2" ∷ []) (gives (int 2)) }
    ensures bound { run
        (case_of (list_term (Done (int 7) ∷ Done (int 8) ∷ []))
        ((Pattern.Nil, Done (int 1)) ∷
        (Pattern.Cons (Pattern.Local 3) (Pattern.Local 4), Local 4) ∷ [])) 0
        ≡ gives (list (int 8 ∷ [])) }
    ensures hides { run
        (LetValue (Pattern.Local 0) (Done (int 1))
        (case_of (Done (int 2)) ((Pattern.Local 0, Local 0) ∷ []))) 0
        ≡ gives (int 2) }
    ensures outer { run
        (LetValue (Pattern.Local 0) (Done (int 1))
        (case_of (Done (int 2)) ((Pattern.Local 1, Local 0) ∷ []))) 0
        ≡ gives (int 1) }
    ensures none { run (case_of (Done (int 3)) ((exactly 1, Done (int 1)) ∷ [])) 5
        ≡ fails NoMatch 5 }
    ensures fault { run
        (case_of (native_of DIVIDE (int 1 ∷ int 0 ∷ []))
        ((Pattern.Anything, Done (int 1)) ∷ [])) 5
        ≡ fails DivideByZero 3 }
{}

/// The value first, and the body under the names of the pattern, which hide others and don't stand in the value.
pub fn values_are_named()
    ensures order { run
        (LetValue (Pattern.Local 0) (noted "a" 1) (tuple_term (noted "b" 2 ∷ Local 0 ∷ []))) 6
        ≡ noting (watched "a" "1" ∷ watched "b" "2" ∷ []) (gives (tuple (int 2 ∷ int 1 ∷ []))) }
    ensures once { run (LetValue (Pattern.Local 0) (noted "a" 1) (tuple_term (Local 0 ∷ Local 0 ∷ []))) 3
        ≡ noting (watched "a" "1" ∷ []) (gives (tuple (int 1 ∷ int 1 ∷ []))) }
    ensures hides { run
        (LetValue (Pattern.Local 0) (Done (int 1))
        (LetValue (Pattern.Local 0) (Done (int 2)) (Local 0))) 0
        ≡ gives (int 2) }
    ensures outside { run
        (LetValue (Pattern.Local 0) (Done (int 1))
        (LetValue (Pattern.Local 0) (tuple_term (Local 0 ∷ [])) (Local 0))) 0
        ≡ gives (tuple (int 1 ∷ [])) }
    ensures parts { run
        (LetValue (Pattern.Tuple (patterns_of (Pattern.Local 1 ∷ Pattern.Local 2 ∷ [])))
        (tuple_term (Done (int 7) ∷ Done (int 8) ∷ [])) (Local 2)) 0
        ≡ gives (int 8) }
    ensures no_match { run (LetValue (exactly 5) (Done (int 1)) (Done (int 1))) 4
        ≡ fails NoMatch 4 }
{}

/// The functions of a group call each other and themselves. Their names hide others, a parameter hides them, and they
/// keep the values of names outside.
pub fn groups_call_each_other()
    ensures even { run
        (LetFunctions
        (functions
        ((
          0,
          Pattern.Local 2,
          If (call (native EQUAL) (Local 2 ∷ Done (int 0) ∷ []))
              (Done (truth true))
              (Call (Local 1) (call (native SUBTRACT) (Local 2 ∷ Done (int 1) ∷ []))),
        ) ∷ (
          1,
          Pattern.Local 3,
          If (call (native EQUAL) (Local 3 ∷ Done (int 0) ∷ []))
              (Done (truth false))
              (Call (Local 0) (call (native SUBTRACT) (Local 3 ∷ Done (int 1) ∷ []))),
        ) ∷ []))
        (Call (Local 0) (Done (int 2)))) 16
        ≡ gives (truth true) }
    ensures second { run
        (LetFunctions
        (functions ((0, Pattern.Anything, Done (int 7)) ∷ (1, Pattern.Local 3, Local 3) ∷ []))
        (Call (Local 1) (Done (int 5)))) 1
        ≡ gives (int 5) }
    ensures hides { run
        (LetValue (Pattern.Local 0) (Done (int 1))
        (LetFunctions (functions ((0, Pattern.Anything, Done (int 7)) ∷ []))
        (Call (Local 0) (Done (int 5))))) 1
        ≡ gives (int 7) }
    ensures parameter { run
        (LetFunctions (functions ((0, Pattern.Local 0, Local 0) ∷ []))
        (Call (Local 0) (Done (int 5)))) 1
        ≡ gives (int 5) }
    ensures outer { run
        (LetValue (Pattern.Local 4) (Done (int 1))
        (LetFunctions (functions ((0, Pattern.Anything, Local 4) ∷ []))
        (Call (Local 0) (Done (int 5))))) 1
        ≡ gives (int 1) }
    ensures outer_hidden { run
        (LetValue (Pattern.Local 4) (Done (int 1))
        (LetFunctions (functions ((0, Pattern.Local 4, Local 4) ∷ []))
        (Call (Local 0) (Done (int 5))))) 1
        ≡ gives (int 5) }
    ensures body_keeps { run
        (LetValue (Pattern.Local 4) (Done (int 1))
        (LetFunctions (functions ((0, Pattern.Anything, Done (int 7)) ∷ [])) (Local 4))) 0
        ≡ gives (int 1) }
    ensures no_match { run
        (LetFunctions (functions ((0, exactly 1, Done (int 7)) ∷ []))
        (Call (Local 0) (Done (int 5)))) 4
        ≡ fails NoMatch 3 }
    ensures free { run (LetFunctions (functions []) (Done (int 1))) 0 ≡ gives (int 1) }
{}

/// Parts are evaluated from left to right.
pub fn parts_go_from_left_to_right()
    ensures tuple { run (tuple_term (noted "a" 1 ∷ noted "b" 2 ∷ [])) 6
        ≡ noting (watched "a" "1" ∷ watched "b" "2" ∷ []) (gives (tuple (int 1 ∷ int 2 ∷ []))) }
    ensures list { run (list_term (noted "a" 1 ∷ noted "b" 2 ∷ [])) 6
        ≡ noting (watched "a" "1" ∷ watched "b" "2" ∷ []) (gives (list (int 1 ∷ int 2 ∷ []))) }
    ensures empty { run (list_term []) 0 ≡ gives (list []) }
    ensures fault { run
        (tuple_term (noted "a" 1 ∷ native_of DIVIDE (int 1 ∷ int 0 ∷ []) ∷ noted "b" 2 ∷ [])) 9
        ≡ noting (watched "a" "1" ∷ []) (fails DivideByZero 4) }
{}

/// A range spends a unit for each element, after its ends.
pub fn ranges_spend_their_elements()
    ensures order { run (Range (noted "a" 3) (noted "b" 5)) 9
        ≡ noting (watched "a" "3" ∷ watched "b" "5" ∷ [])
        (gives (list (int 3 ∷ int 4 ∷ int 5 ∷ []))) }
    ensures negative { run (Range (Done (minus 1)) (Done (int 1))) 3
        ≡ gives (list (minus 1 ∷ int 0 ∷ int 1 ∷ [])) }
    ensures short { run (Range (Done (int 3)) (Done (int 5))) 2 ≡ out_of_fuel }
    ensures one { run (Range (Done (int 3)) (Done (int 3))) 2 ≡ leaves 1 (list (int 3 ∷ [])) }
    ensures empty { run (Range (Done (int 3)) (Done (int 2))) 0 ≡ gives (list []) }
    ensures far { run (Range (Done (int 3)) (Done (minus 9))) 0 ≡ gives (list []) }
    ensures no_number { run (Range (Done (int 3)) (Done (text "a"))) 4 ≡ no_rule 4 }
{}
