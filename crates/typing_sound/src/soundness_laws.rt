//! A well-typed program never meets an ill-typed value. The bodies are empty: what is stated holds of the definitions.

ghost use Rattle.std.specs.Prelude.{◌≡◌, ℕ, List, Some, None};
ghost use Rattle.elm_typing.specs.Ground.{Ground};
ghost use Rattle.elm_typing.specs.Sorts.{Simple, sort_of};
ghost use Rattle.elm_meaning.specs.Values.{Value, Tree};
ghost use Rattle.elm_meaning.specs.Equations.{Equation};
ghost use Rattle.elm_meaning.specs.Progress.{Stage, State, Returns, HasNoRule, state_of};
ghost use Rattle.elm_meaning.specs.Evaluation.{eval};
ghost use Rattle.elm_meaning.specs.Calls.{call_of};
ghost use Rattle.typing_rules.specs.Worlds.{no_surroundings, MayStandIn};
ghost use Rattle.typing_rules.specs.TermTypes.{ValueHas, AreTaken, TermHas};
ghost use Rattle.typing_rules.specs.Nodes.{values, AreWellTyped};
ghost use Rattle.typing_sound.specs.SafeEndings.{at_stage, IsSafe, TopsTyped, HasWellTyped};
ghost use Rattle.typing_sound.specs.Settings.{Setting, world_of};

/// The evaluation of a closed well-typed term is safe, in either stage and with any fuel.
pub fn well_typed_terms_are_safe()
    ensures { (p : Setting) (tops : List Value) (stage : Stage) (e : Tree) (t : Ground)
        (fuel : ℕ) →
        TopsTyped (world_of p) stage tops →
        TermHas (at_stage stage (world_of p)) no_surroundings e t →
        IsSafe (world_of p) stage t (eval tops stage e fuel) }
{}

/// In stage one a closed well-typed term always has a rule; in stage two it does where it has a simple type.
pub fn well_typed_terms_have_rules()
    ensures stage_one { (p : Setting) (tops : List Value) (qs : List Equation) (e : Tree)
        (t : Ground) (fuel : ℕ) →
        TopsTyped (world_of p) (Some qs) tops →
        TermHas (at_stage (Some qs) (world_of p)) no_surroundings e t →
        HasNoRule (eval tops (Some qs) e fuel) → ⊥ }
    ensures simple { (p : Setting) (tops : List Value) (stage : Stage) (e : Tree) (t : Ground)
        (fuel : ℕ) →
        TopsTyped (world_of p) stage tops →
        TermHas (at_stage stage (world_of p)) no_surroundings e t →
        sort_of p.sorts t ≡ Simple →
        HasNoRule (eval tops stage e fuel) → ⊥ }
{}

/// The value of a closed well-typed term has each of its types.
pub fn values_have_the_types_of_their_terms()
    ensures { (p : Setting) (tops : List Value) (stage : Stage) (e : Tree) (t : Ground)
        (fuel : ℕ) (v : Value)
        (s : State) →
        TopsTyped (world_of p) stage tops →
        TermHas (at_stage stage (world_of p)) no_surroundings e t →
        eval tops stage e fuel ≡ Returns v s → ValueHas (at_stage s.stage (world_of p)) v t }
{}

/// A term of a simple type makes no node.
pub fn simple_terms_make_no_node()
    ensures { (p : Setting) (tops : List Value) (stage : Stage) (e : Tree) (t : Ground)
        (fuel : ℕ) (v : Value)
        (s : State) →
        TopsTyped (world_of p) stage tops →
        TermHas (at_stage stage (world_of p)) no_surroundings e t →
        sort_of p.sorts t ≡ Simple →
        eval tops stage e fuel ≡ Returns v s → s.stage ≡ stage }
{}

/// The equations that a well-typed term adds are well typed in order, also where it ends in a fault.
pub fn equations_are_well_typed_in_order()
    ensures { (p : Setting) (tops : List Value) (qs : List Equation) (e : Tree) (t : Ground)
        (fuel : ℕ) →
        TopsTyped (world_of p) (Some qs) tops →
        TermHas (at_stage (Some qs) (world_of p)) no_surroundings e t →
        AreWellTyped qs (world_of p) →
        HasWellTyped (world_of p) (state_of (eval tops (Some qs) e fuel)).stage }
{}

/// A call in stage two is safe where its function takes values of these types one by one.
pub fn well_typed_calls_are_safe()
    ensures { (p : Setting) (tops : List Value) (f : Value) (vs : List Value) (whole t : Ground)
        (fuel : ℕ) →
        TopsTyped (world_of p) None tops →
        ValueHas (world_of p) f whole → AreTaken (world_of p) (values vs) whole t →
        MayStandIn (world_of p) whole t →
        IsSafe (world_of p) None t (call_of tops f vs fuel) }
{}
