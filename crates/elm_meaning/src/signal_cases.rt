//! Worked cases of the natives of signals: in stage one each adds its equation, and in stage two none has a rule. The
//! bodies are empty: what is stated holds of the definitions by computation.

ghost use Rattle.std.specs.Prelude.{◌≡◌, ℕ, Some, [], ◌∷◌, ◌++◌, replicate};
ghost use Rattle.elm_base.specs.declared.native.TheConstants.{ADD, NEGATE, CONSTANT, MAP, MAP2, MAP3, MAP4, MAP5, FOLDP, MERGE, FILTER, FILTER_MAP, DROP_REPEATS, SAMPLE_ON, ASYNC};
ghost use Rattle.elm_base.specs.declared.term.RunFault.TheVariants.{TooManyNodes, OutOfFuel};
ghost use Rattle.elm_meaning.specs.Patterns.{Pattern};
ghost use Rattle.elm_meaning.specs.Values.{Signal, Done, Local, Input, Call, LetValue};
ghost use Rattle.elm_meaning.specs.Equations.{Equation};
ghost use Rattle.elm_meaning.specs.Progress.{Ending, Returns, Stops, stage_one, add_node};
ghost use Rattle.elm_meaning.specs.Evaluation.{begun, eval};
ghost use Rattle.elm_meaning.specs.Spelling.{int, native, native_value, call, tuple_term, run, run_first, gives, makes, no_rule, out_of_fuel};

/// The equation that each native adds, with its function, its first value and the numbers of its inputs.
pub fn signals_add_equations()
    ensures input { run_first (Input 3) 0 ≡ makes 0 (Equation.Input 3 ∷ []) }
    ensures constant { run_first (Call (native CONSTANT) (Done (int 3))) 1
        ≡ makes 0 (Equation.Constant (int 3) ∷ []) }
    ensures map { run_first (call (native MAP) (native NEGATE ∷ Input 0 ∷ [])) 2
        ≡ makes 1 (Equation.Input 0 ∷ Equation.Map (native_value NEGATE) (0 ∷ []) ∷ []) }
    ensures map2 { run_first (call (native MAP2) (native ADD ∷ Input 0 ∷ Input 5 ∷ [])) 3
        ≡ makes 2
        (Equation.Input 0 ∷ Equation.Input 5 ∷ Equation.Map (native_value ADD) (0 ∷ 1 ∷ []) ∷
        []) }
    ensures map3 { run_first (call (native MAP3) (native ADD ∷ Input 7 ∷ Input 6 ∷ Input 5 ∷ [])) 4
        ≡ makes 3 (Equation.Input 7 ∷ Equation.Input 6 ∷ Equation.Input 5
        ∷ Equation.Map (native_value ADD) (0 ∷ 1 ∷ 2 ∷ []) ∷ []) }
    ensures map4 { run_first
        (call (native MAP4) (native ADD ∷ Input 7 ∷ Input 6 ∷ Input 5 ∷ Input 4 ∷ [])) 5
        ≡ makes 4 (Equation.Input 7 ∷ Equation.Input 6 ∷ Equation.Input 5 ∷ Equation.Input 4
        ∷ Equation.Map (native_value ADD) (0 ∷ 1 ∷ 2 ∷ 3 ∷ []) ∷ []) }
    ensures map5 { run_first
        (call (native MAP5) (native ADD ∷ Input 7 ∷ Input 6 ∷ Input 5 ∷ Input 4 ∷ Input 3 ∷ []))
        6
        ≡ makes 5
        (Equation.Input 7 ∷ Equation.Input 6 ∷ Equation.Input 5 ∷ Equation.Input 4 ∷
        Equation.Input 3
        ∷ Equation.Map (native_value ADD) (0 ∷ 1 ∷ 2 ∷ 3 ∷ 4 ∷ []) ∷ []) }
    ensures foldp { run_first (call (native FOLDP) (native ADD ∷ Done (int 5) ∷ Input 1 ∷ [])) 3
        ≡ makes 1 (Equation.Input 1 ∷ Equation.Foldp (native_value ADD) (int 5) 0 ∷ []) }
    ensures merge { run_first (call (native MERGE) (Input 0 ∷ Input 5 ∷ [])) 2
        ≡ makes 2 (Equation.Input 0 ∷ Equation.Input 5 ∷ Equation.Merge 0 1 ∷ []) }
    ensures filter { run_first (call (native FILTER) (native ADD ∷ Done (int 5) ∷ Input 1 ∷ [])) 3
        ≡ makes 1 (Equation.Input 1 ∷ Equation.Filter (native_value ADD) (int 5) 0 ∷ []) }
    ensures filter_map { run_first (call (native FILTER_MAP) (native ADD ∷ Done (int 5) ∷ Input 1 ∷ [])) 3
        ≡ makes 1 (Equation.Input 1 ∷ Equation.FilterMap (native_value ADD) (int 5) 0 ∷ []) }
    ensures drop_repeats { run_first (Call (native DROP_REPEATS) (Input 0)) 1
        ≡ makes 1 (Equation.Input 0 ∷ Equation.DropRepeats 0 ∷ []) }
    ensures sample_on { run_first (call (native SAMPLE_ON) (Input 0 ∷ Input 5 ∷ [])) 2
        ≡ makes 2 (Equation.Input 0 ∷ Equation.Input 5 ∷ Equation.SampleOn 0 1 ∷ []) }
    ensures async_node { run_first (Call (native ASYNC) (Input 0)) 1
        ≡ makes 1 (Equation.Input 0 ∷ Equation.Async 0 ∷ []) }
{}

/// A signal that a `let` names is one node however often it is used. A later term goes on from the equations of those
/// before it.
pub fn shared_signals_are_one_node()
    ensures shared { run_first
        (LetValue (Pattern.Local 0) (Input 3) (call (native MERGE) (Local 0 ∷ Local 0 ∷ []))) 2
        ≡ makes 1 (Equation.Input 3 ∷ Equation.Merge 0 0 ∷ []) }
    ensures repeated { run_first (call (native MERGE) (Input 3 ∷ Input 3 ∷ [])) 2
        ≡ makes 2 (Equation.Input 3 ∷ Equation.Input 3 ∷ Equation.Merge 0 1 ∷ []) }
    ensures later { eval [] (Some (Equation.Input 0 ∷ Equation.Input 1 ∷ []))
        (Call (native ASYNC) (Done (Signal 1))) 1
        ≡ makes 2 (Equation.Input 0 ∷ Equation.Input 1 ∷ Equation.Async 1 ∷ []) }
    ensures short { run_first (Call (native CONSTANT) (Done (int 3))) 0
        ≡ Stops OutOfFuel (begun stage_one 0) }
{}

/// What isn't a signal makes no node, and in stage two nothing does.
pub fn only_stage_one_makes_nodes()
    ensures no_signal { run_first (Call (native ASYNC) (Done (int 1))) 1
        ≡ Ending.NoRule (begun stage_one 0) }
    ensures one_of_two { run_first (call (native MAP2) (native ADD ∷ Done (Signal 0) ∷ Done (int 1) ∷ [])) 3
        ≡ Ending.NoRule (begun stage_one 0) }
    ensures input { run (Input 3) 5 ≡ no_rule 5 }
    ensures native { run (Call (native CONSTANT) (Done (int 3))) 1 ≡ no_rule 0 }
{}

/// There are at most 4,096 nodes.
pub fn nodes_have_a_limit()
    ensures last { eval [] (Some (replicate 4095 (Equation.Input 0))) (Input 1) 3
        ≡ Returns (Signal 4095)
        (begun (Some (replicate 4095 (Equation.Input 0) ++ Equation.Input 1 ∷ [])) 3) }
    ensures input { eval [] (Some (replicate 4096 (Equation.Input 0))) (Input 1) 3
        ≡ Stops TooManyNodes (begun (Some (replicate 4096 (Equation.Input 0))) 3) }
    ensures native { eval [] (Some (replicate 4096 (Equation.Input 0)))
        (Call (native CONSTANT) (Done (int 3))) 3
        ≡ Stops TooManyNodes (begun (Some (replicate 4096 (Equation.Input 0))) 2) }
{}
