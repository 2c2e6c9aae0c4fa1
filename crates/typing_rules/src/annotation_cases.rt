//! Worked cases of annotations at the top level. The bodies are empty: what is stated holds of the definitions.

ghost use Rattle.std.specs.Prelude.{◌≡◌, [], ◌∷◌};
ghost use Rattle.elm_base.specs.declared.native.TheConstants.{CONSTANT};
ghost use Rattle.typing_rules.specs.Library.{from, int_, bool_, signal_};
ghost use Rattle.typing_rules.specs.Core.{Core, Local, Native};
ghost use Rattle.typing_rules.specs.TypingExamples.{lambda, number, var, with_x, Accepted, smaller, one_more, get_x};

/// The variables of an annotation stand for types of which nothing else is known.
pub fn annotations_are_kept()
    ensures same { Accepted (from (var "a" ∷ []) (var "a")) (lambda 0 (Local 0)) }
    ensures others { Accepted (from (var "a" ∷ []) (var "b")) (lambda 0 (Local 0)) → ⊥ }
    ensures narrow { Accepted (from (int_ ∷ []) int_) (lambda 0 (Local 0)) }
    ensures wide { Accepted (from (var "a" ∷ []) (var "a")) one_more → ⊥ }
    ensures number { Accepted (from (var "number" ∷ []) (var "number")) one_more }
    ensures wrong { Accepted int_ (lambda 0 (Local 0)) → ⊥ }
{}

/// A variable has exactly the flags of its name, and one before a bar stands for a record.
pub fn variables_have_their_flags()
    ensures comparable { Accepted (from (var "comparable" ∷ var "comparable" ∷
        []) bool_) smaller }
    ensures plain { Accepted (from (var "a" ∷ var "a" ∷ []) bool_) smaller → ⊥ }
    ensures appendable { Accepted (from (var "appendable" ∷ var "appendable" ∷
        []) bool_) smaller → ⊥ }
    ensures record { Accepted (from (with_x ∷ []) int_) get_x }
    ensures variable { Accepted (from (var "r" ∷ []) int_) get_x → ⊥ }
{}

/// Sorts are chosen for the variables. In `k : a -> Signal a` a signal can't stand for `a`, but a value can.
pub fn variables_have_chosen_sorts()
    ensures constant { Accepted (from (var "a" ∷ []) (signal_ (var "a"))) (Native CONSTANT) }
    ensures signal { Accepted (from (signal_ (var "a") ∷ []) (var "a")) (lambda 0 (Local 0)) → ⊥ }
{}
