//! Which native has which number, and how many arguments it takes. The bodies are empty: what is stated holds of the
//! definitions.

ghost use Rattle.std.specs.Prelude.{◌≡◌, ℕ, suc, ◌-◌, ◌<◌, ◌≤◌, None, Some, List, [], ◌∷◌, length, map};
ghost use Rattle.elm_base.specs.declared.native.TheConstants.{ADD, MAP, MAP2, MAP3, MAP4, MAP5, CONSTANT, FOLDP, MERGE, FILTER, FILTER_MAP, DROP_REPEATS, SAMPLE_ON, ASYNC, EMPTY, UP, DOWN, LEFT, RIGHT, TOP_LEFT, MIDDLE, BOTTOM_RIGHT, NATIVES};
ghost use Rattle.elm_base.specs.declared.term.RunFault.TheVariants.{OutOfFuel};
ghost use Rattle.elm_meaning.specs.declared.callee.Callee.TheVariants as callee;
ghost use Rattle.elm_meaning.specs.Values.{Value, Values, Applicable, Partial};
ghost use Rattle.elm_meaning.specs.Answers.{Reply, no_reply};
ghost use Rattle.elm_meaning.specs.Progress.{State, Returns, Stops, with_left, with_notes, spend, answered, replied};
ghost use Rattle.elm_meaning.specs.Evaluation.{with_argument, number_of, list_of, apply, evaluate};
ghost use Rattle.elm_meaning.specs.NativeTable.{natives, native_at, reply, IsValue, Replies, takes_of};
ghost use Rattle.elm_meaning.specs.Spelling.{int, made, element};

/// There are as many as elm_base numbers, each takes as many arguments as its type in the library says, and there is
/// none beyond.
pub fn natives_stand_by_number()
    ensures all { length natives ≡ NATIVES }
    ensures basics { map takes_of
        (map native_at
        (0 ∷ 1 ∷ 2 ∷ 3 ∷ 4 ∷ 5 ∷ 6 ∷ 7 ∷ 8 ∷ 9 ∷ 10 ∷ 11 ∷ 12 ∷ 13 ∷ 14 ∷ 15 ∷ []))
        ≡ 2 ∷ 2 ∷ 2 ∷ 2 ∷ 2 ∷ 2 ∷ 1 ∷ 2 ∷ 2 ∷ 2 ∷ 2 ∷ 2 ∷ 2 ∷ 2 ∷ 2 ∷ 1 ∷ [] }
    ensures texts { map takes_of (map native_at (16 ∷ 17 ∷ 18 ∷ 19 ∷ 20 ∷ 21 ∷ 22 ∷ 23 ∷ 24 ∷ 25 ∷ []))
        ≡ 1 ∷ 1 ∷ 1 ∷ 1 ∷ 1 ∷ 1 ∷ 1 ∷ 2 ∷ 2 ∷ 1 ∷ [] }
    ensures signals { map takes_of
        (map native_at
        (CONSTANT ∷ MAP ∷ MAP2 ∷ MAP3 ∷ MAP4 ∷ MAP5 ∷ FOLDP ∷ MERGE ∷ FILTER ∷ FILTER_MAP ∷
        DROP_REPEATS ∷ SAMPLE_ON ∷ ASYNC ∷ []))
        ≡ 1 ∷ 2 ∷ 3 ∷ 4 ∷ 5 ∷ 6 ∷ 3 ∷ 2 ∷ 3 ∷ 3 ∷ 1 ∷ 2 ∷ 1 ∷ [] }
    ensures elements { map takes_of (map native_at (39 ∷ 40 ∷ 41 ∷ 42 ∷ 43 ∷ 49 ∷ 50 ∷ 51 ∷ 52 ∷ []))
        ≡ 1 ∷ 0 ∷ 2 ∷ 2 ∷ 0 ∷ 0 ∷ 4 ∷ 1 ∷ 1 ∷ [] }
    ensures beyond { native_at NATIVES ≡ None }
{}

/// The natives that are values: the empty Element, directions and positions.
pub fn some_natives_are_values()
    ensures empty { native_at EMPTY ≡ Some (IsValue (element 0 0 [])) }
    ensures up { native_at UP ≡ Some (IsValue (made "up" [])) }
    ensures down { native_at DOWN ≡ Some (IsValue (made "down" [])) }
    ensures left { native_at LEFT ≡ Some (IsValue (made "left" [])) }
    ensures right { native_at RIGHT ≡ Some (IsValue (made "right" [])) }
    ensures top_left { native_at TOP_LEFT ≡ Some (IsValue (made "topLeft" [])) }
    ensures middle { native_at MIDDLE ≡ Some (IsValue (made "middle" [])) }
    ensures bottom_right { native_at BOTTOM_RIGHT ≡ Some (IsValue (made "bottomRight" [])) }
{}

/// A value, a native of signals, a number without a native, and arguments of no form that it takes have no reply.
pub fn there_may_be_no_reply()
    ensures value { reply EMPTY [] ≡ no_reply }
    ensures signal { reply ASYNC (int 1 ∷ []) ≡ no_reply }
    ensures beyond { reply NATIVES [] ≡ no_reply }
    ensures arguments { reply ADD (int 1 ∷ []) ≡ no_reply }
    ensures kinds { reply ADD (int 1 ∷ made "True" [] ∷ []) ≡ no_reply }
{}

/// Giving an argument to a native spends a unit. With its last one the native replies; before that it lacks arguments.
pub fn an_argument_spends_a_unit()
    ensures last { (tops : List Value) (n takes : ℕ) (f : List Value → Reply) (vs : Values) (w : Value)
        (s : State) →
        native_at n ≡ Some (Replies takes f) → suc (number_of vs) ≡ takes →
        apply (evaluate tops) (Applicable (Partial (callee.Native n) vs)) w s
        ≡ spend 1 s (λ t. replied (reply n (list_of (with_argument vs w))) t) }
    ensures lacking { (tops : List Value) (n takes : ℕ) (f : List Value → Reply) (vs : Values) (w : Value)
        (s : State) →
        native_at n ≡ Some (Replies takes f) → suc (number_of vs) < takes →
        apply (evaluate tops) (Applicable (Partial (callee.Native n) vs)) w s
        ≡ spend 1 s (λ t. Returns (Applicable (Partial (callee.Native n) (with_argument vs w))) t) }
{}

/// The work of a reply is spent first, then its notes are recorded and its answer comes. Where a unit is lacking none is
/// left, and nothing is noted.
pub fn the_work_comes_first()
    ensures enough { (r : Reply) (s : State) → r.work ≤ s.left →
        replied r s ≡ answered r.answer (with_notes r.notes (with_left (s.left - r.work) s)) }
    ensures short { (r : Reply) (s : State) → s.left < r.work →
        replied r s ≡ Stops OutOfFuel (with_left 0 s) }
{}
