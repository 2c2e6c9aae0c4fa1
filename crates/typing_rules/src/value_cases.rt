//! Worked cases of values and nodes. The bodies are empty: what is stated holds of the definitions.

ghost use Rattle.std.specs.Prelude.{◌≡◌, [], ◌∷◌, codes};
ghost use Rattle.elm_base.specs.declared.native.TheConstants.{ADD, NEGATE};
ghost use Rattle.elm_typing.specs.Ground.{Ground};
ghost use Rattle.elm_typing.specs.Names.{list_of, signal_of};
ghost use Rattle.elm_typing.specs.Spelling.{int, string, maybe, tuple, record_of};
ghost use Rattle.elm_meaning.specs.Patterns.{Pattern};
ghost use Rattle.elm_meaning.specs.Values.{Value, Applicable, Closure, Cells, Signal, Tree, Local};
ghost use Rattle.elm_meaning.specs.Equations.{Equation};
ghost use Rattle.elm_meaning.specs.Spelling as value;
ghost use Rattle.typing_rules.specs.Library.{element};
ghost use Rattle.typing_rules.specs.TermTypes.{ValueHas};
ghost use Rattle.typing_rules.specs.Nodes.{at_equations, AreWellTyped};
ghost use Rattle.typing_rules.specs.TypingExamples.{here, partial, identity};

/// Values have the types of their forms.
pub fn values_have_types()
    ensures int { ValueHas here (value.int 3) int }
    ensures text { ValueHas here (value.text "a") int → ⊥ }
    ensures list { ValueHas here (value.list (value.int 3 ∷ [])) (list_of int) }
    ensures mixed { ValueHas here (value.list (value.int 3 ∷ value.text "a" ∷ []))
        (list_of int) → ⊥ }
    ensures pair { ValueHas here (value.tuple (value.int 3 ∷ value.text "a" ∷ [])) (tuple (int ∷
        string ∷ [])) }
    ensures short { ValueHas here (value.tuple (value.int 3 ∷ [])) (tuple (int ∷ string ∷ [])) →
        ⊥ }
    ensures record { ValueHas here (value.record_of (("x", value.int 3) ∷ [])) (record_of
        (("x", int) ∷ [])) }
    ensures label { ValueHas here (value.record_of (("x", value.int 3) ∷ [])) (record_of
        (("y", int) ∷ [])) → ⊥ }
    ensures cells { ValueHas here (Cells 0 0 []) element }
{}

/// Functions have the types of what they are: lambdas, and natives that lack arguments.
pub fn functions_have_types()
    ensures closure { ValueHas here identity (Ground.Function int int) }
    ensures other { ValueHas here identity (Ground.Function int string) → ⊥ }
    ensures lacking { ValueHas here (partial ADD (value.int 1 ∷ [])) (Ground.Function int int) }
    ensures argument { ValueHas here (partial ADD (value.text "a" ∷ []))
        (Ground.Function int int) → ⊥ }
    ensures complete { ValueHas here (partial ADD (value.int 1 ∷ value.int 2 ∷ [])) int → ⊥ }
{}

/// A signal has the type that its node's equation has as a call, by the nodes before it.
pub fn signals_have_the_types_of_their_nodes()
    ensures constant { ValueHas (at_equations (Equation.Constant (value.int 3) ∷ []) here)
        (Signal 0) (signal_of int) }
    ensures other { ValueHas (at_equations (Equation.Constant (value.int 3) ∷ []) here)
        (Signal 0) (signal_of string) → ⊥ }
    ensures missing { ValueHas (at_equations (Equation.Constant (value.int 3) ∷ []) here)
        (Signal 1) (signal_of int) → ⊥ }
    ensures ordered { AreWellTyped (Equation.Constant (value.int 3) ∷ Equation.Map
        (partial NEGATE []) (0 ∷ []) ∷ []) here }
    ensures early { AreWellTyped (Equation.Map (partial NEGATE []) (1 ∷ []) ∷ Equation.Constant
        (value.int 3) ∷ []) here → ⊥ }
{}
