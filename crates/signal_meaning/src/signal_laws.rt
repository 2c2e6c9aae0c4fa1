//! Laws of the definitions, in the words of signals: what a node says, its value, what is pending, and how a run stops.
//! The bodies are empty: what is stated holds of the definitions.

ghost use Rattle.std.specs.Prelude.{◌≡◌, ℕ, ◌+◌, ◌<◌, Some, None, List, [], ◌∷◌, ◌++◌, length, drop, slice_get};
ghost use Rattle.elm_meaning.specs.Values.{Tree, no_value};
ghost use Rattle.elm_meaning.specs.Equations.{Equation};
ghost use Rattle.signal_meaning.specs.Events.{Event};
ghost use Rattle.signal_meaning.specs.StageOne.{Start, Begun, Network, Cause, begin_all};
ghost use Rattle.signal_meaning.specs.Nodes.{begins, answers};
ghost use Rattle.signal_meaning.specs.Moments.{moment, say, value, value_after, changed, delivered, asyncs_before, inner_signals, inner_change, made, pending, one_where};
ghost use Rattle.signal_meaning.specs.Order.{IsOrdered};
ghost use Rattle.signal_meaning.specs.Outcomes.{Running, Stopped, Place, run, good};
ghost use Rattle.signal_meaning.specs.NoteTable.{event_notes};

/// At the start a node says its first value by the first values of its inputs, where they have smaller numbers.
pub fn a_node_begins_by_its_inputs()
    ensures { (net : Network) (k : ℕ) (q : Equation) → IsOrdered net →
        slice_get net.equations k ≡ Some q → say net [] k ≡ (begins net (value net []) q).say }
{}

/// At an event a node says what the row of its kind makes of its inputs' values and changes after that event, of its own
/// value before, and of the oldest change that is delivered to it.
pub fn a_node_answers_by_its_inputs()
    ensures { (net : Network) (e : Event) (es : List Event) (k : ℕ) (q : Equation) →
        IsOrdered net → slice_get net.equations k ≡ Some q →
        say net (e ∷ es) k
        ≡ (answers net e (value net (e ∷ es)) (changed net (e ∷ es)) (value net es k)
        (delivered e (moment net es) (asyncs_before k net.equations)) q).say }
{}

/// A node's value is the one that it changed to, and else the value before.
pub fn values_are_those_last_said()
    ensures first { (net : Network) (k : ℕ) → k < length net.equations →
        value net [] k ≡ value_after no_value (say net [] k) }
    ensures later { (net : Network) (e : Event) (es : List Event) (k : ℕ) → k < length net.equations →
        value net (e ∷ es) k ≡ value_after (value net es k) (say net (e ∷ es) k) }
{}

/// The changes that an async was made to keep are those of its inner signal after event 0, in order.
pub fn asyncs_keep_the_changes_of_their_signals()
    ensures first { (net : Network) (async : ℕ) → made net [] async ≡ [] }
    ensures later { (net : Network) (e : Event) (es : List Event) (async : ℕ) →
        made net (e ∷ es) async
        ≡ made net es async ++ inner_change (moment net (e ∷ es)).said
        (slice_get (inner_signals net.equations) async) }
    ensures pending { (net : Network) (past : List Event) (async : ℕ) →
        pending net past async ≡ drop ((moment net past).gone async) (made net past async) }
    ensures gone { (net : Network) (e : Event) (es : List Event) (async : ℕ) →
        (moment net (e ∷ es)).gone async
        ≡ (moment net es).gone async + one_where (delivered e (moment net es) async) }
{}

/// A stopped run stays as it is, whatever comes, and its longest running part with it.
pub fn a_stopped_run_stays()
    ensures run { (start : Start) (e : Event) (es : List Event) (event : ℕ) (place : Place)
        (cause : Cause) →
        run start es ≡ Stopped event place cause → run start (e ∷ es) ≡ Stopped event place cause }
    ensures good { (start : Start) (e : Event) (es : List Event) (event : ℕ) (place : Place)
        (cause : Cause) →
        run start es ≡ Stopped event place cause → good start (e ∷ es) ≡ good start es }
    ensures notes { (start : Start) (e : Event) (es : List Event) (event : ℕ) (place : Place)
        (cause : Cause) →
        run start es ≡ Stopped event place cause → event_notes start (e ∷ es) ≡ [] }
{}

/// The longest running part of a running run is all of it.
pub fn a_running_run_is_good()
    ensures { (start : Start) (past : List Event) → run start past ≡ Running → good start past
        ≡ Some past }
{}

/// Each top value goes on from what those before it have begun.
pub fn top_values_begin_in_turn()
    ensures next { (fuel : ℕ) (es : List Tree) (e : Tree) (b : Begun) →
        (begin_all fuel es b).stop ≡ None → begin_all fuel (es ++ e ∷ []) b ≡ begin_all fuel
        (e ∷ []) (begin_all fuel es b) }
    ensures stopped { (fuel : ℕ) (es more : List Tree) (b : Begun) (cause : Cause) →
        b.stop ≡ None → (begin_all fuel es b).stop ≡ Some cause → begin_all fuel (es ++ more) b ≡
        begin_all fuel es b }
{}
