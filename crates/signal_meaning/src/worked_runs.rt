//! Worked runs: programs with lists of events, and the values, what waits, the outcome and the notes after each. The
//! bodies are empty: what is stated holds of the definitions by computation.

ghost use Rattle.std.specs.Prelude.{◌≡◌, true, false, Some, None, [], ◌∷◌, reverse};
ghost use Rattle.elm_base.specs.declared.term.RunFault.TheVariants.{OutOfFuel, IntRange, DivideByZero, FunctionEquality};
ghost use Rattle.elm_meaning.specs.Spelling.{of_one, int, minus, text, tuple, record_of, element, bytes};
ghost use Rattle.elm_meaning.specs.Values.{Unit, Local};
ghost use Rattle.signal_meaning.specs.Events.{Delivered};
ghost use Rattle.signal_meaning.specs.StageOne.{Cause, network};
ghost use Rattle.signal_meaning.specs.Moments.{say, value, changed, made, pending};
ghost use Rattle.signal_meaning.specs.Nodes.{Same, Change};
ghost use Rattle.signal_meaning.specs.Outcomes.{Running, Stopped, Top, Node, run, good, shown_value, shown_pending, shown_changed};
ghost use Rattle.signal_meaning.specs.NoteTable.{watches, logs};
ghost use Rattle.signal_meaning.specs.Programs.{counted_clicks, queue, async_order, merge_left, function_equality, div, div_fixed, logged_x, record_port, int_range, loop_fuel, positive_x, doubled_x, sampled_x, steady, two_asyncs, logged_down, two_watches, logging_tops, text_repeats, program, map, filter, filter_map, number, divided, log, mouse_x, click, moved, pressed, sent};

/// A program that counts clicks, with a watch. The watch table has the last text of its tag.
pub fn clicks_are_counted()
    ensures start { shown_value counted_clicks [] 10 ≡ Some (element 1 1 ("0" ∷ [])) }
    ensures no_watch { watches counted_clicks [] ≡ [] }
    ensures one { shown_value counted_clicks (click ∷ []) 10 ≡ Some (element 1 1 ("1" ∷ [])) }
    ensures watch { watches counted_clicks (click ∷ []) ≡ (bytes "count", bytes "1") ∷ [] }
    ensures three { shown_value counted_clicks (click ∷ click ∷ click ∷ []) 10
        ≡ Some (element 1 1 ("3" ∷ [])) }
    ensures last { watches counted_clicks (click ∷ click ∷ click ∷ [])
        ≡ (bytes "count", bytes "3") ∷ [] }
    ensures running { run counted_clicks (click ∷ click ∷ click ∷ []) ≡ Running }
{}

/// Changes of a signal wait for its async in order, and each delivery takes the oldest.
pub fn a_queue_is_first_in_first_out()
    ensures first { shown_value queue (moved (int 1) (int 2) ∷ []) 11
        ≡ Some (element 5 1 ("(0,0)" ∷ [])) }
    ensures one { shown_pending queue (moved (int 1) (int 2) ∷ []) 0 ≡ int 1 ∷ [] }
    ensures two { shown_pending queue (reverse (moved (int 1) (int 2) ∷ moved (int 3) (int 4) ∷ [])) 0
        ≡ int 1 ∷ int 3 ∷ [] }
    ensures delivered { shown_value queue
        (reverse (moved (int 1) (int 2) ∷ moved (int 3) (int 4) ∷ Delivered 0 ∷ [])) 11
        ≡ Some (element 6 1 ("(1,10)" ∷ [])) }
    ensures left { shown_pending queue
        (reverse (moved (int 1) (int 2) ∷ moved (int 3) (int 4) ∷ Delivered 0 ∷ [])) 0
        ≡ int 3 ∷ [] }
    ensures made { made (network queue)
        (reverse (moved (int 1) (int 2) ∷ moved (int 3) (int 4) ∷ Delivered 0 ∷ [])) 0
        ≡ int 1 ∷ int 3 ∷ [] }
    ensures last { shown_value queue
        (reverse
        (moved (int 1) (int 2) ∷ moved (int 3) (int 4) ∷ Delivered 0 ∷ Delivered 0 ∷ [])) 11
        ≡ Some (element 6 1 ("(3,30)" ∷ [])) }
    ensures none { shown_pending queue
        (reverse
        (moved (int 1) (int 2) ∷ moved (int 3) (int 4) ∷ Delivered 0 ∷ Delivered 0 ∷ [])) 0
        ≡ [] }
    ensures no_async { shown_pending queue (moved (int 1) (int 2) ∷ []) 7 ≡ [] }
{}

/// A delivery with nothing that waits changes nothing, and it takes nothing from a later change.
pub fn a_delivery_may_find_nothing()
    ensures same { shown_value queue (Delivered 0 ∷ []) 11 ≡ Some (element 5 1 ("(0,0)" ∷ [])) }
    ensures unchanged { shown_changed queue (Delivered 0 ∷ []) 9 ≡ false }
    ensures later { shown_pending queue (reverse (Delivered 0 ∷ moved (int 1) (int 2) ∷ [])) 0
        ≡ int 1 ∷ [] }
    ensures no_async { shown_value queue (Delivered 7 ∷ moved (int 1) (int 2) ∷ []) 11
        ≡ Some (element 5 1 ("(0,0)" ∷ [])) }
{}

/// Asyncs have numbers of their own; each keeps the changes of its own signal.
pub fn asyncs_are_numbered_by_themselves()
    ensures first { shown_pending two_asyncs (click ∷ []) 0 ≡ Unit ∷ [] }
    ensures second { shown_pending two_asyncs (click ∷ []) 1 ≡ [] }
    ensures other { shown_pending two_asyncs (moved (int 1) (int 2) ∷ []) 1 ≡ int 1 ∷ [] }
    ensures delivered { shown_value two_asyncs (Delivered 1 ∷ moved (int 1) (int 2) ∷ []) 10
        ≡ Some (int 1) }
    ensures not_other { shown_changed two_asyncs (Delivered 1 ∷ moved (int 1) (int 2) ∷ []) 9
        ≡ false }
    ensures first_value { shown_value two_asyncs [] 10 ≡ Some (int 0) }
{}

/// The order of deliveries and inputs shows: a fold takes the new value first and the state second.
pub fn deliveries_come_in_the_order_of_events()
    ensures delivered_first { shown_value async_order (reverse (click ∷ Delivered 0 ∷ pressed ∷ [])) 14 ≡ Some
        (element 2 1 ("12" ∷ [])) }
    ensures pressed_first { shown_value async_order (reverse (click ∷ pressed ∷ Delivered 0 ∷ [])) 14 ≡ Some
        (element 2 1 ("21" ∷ [])) }
{}

/// Where both sides of a merge change the left one counts; where none does it keeps its value.
pub fn the_left_of_a_merge_counts()
    ensures left { shown_value merge_left (moved (int 5) (int 0) ∷ []) 11
        ≡ Some (element 1 1 ("5" ∷ [])) }
    ensures right { say (network async_order) (pressed ∷ []) 12 ≡ Change (int 2) }
    ensures none { say (network async_order) (click ∷ []) 12 ≡ Same }
    ensures start { shown_value async_order [] 12 ≡ Some (int 1) }
{}

/// A fault stops the run at its event and node. A stopped run keeps what it showed before, and stays stopped.
pub fn a_fault_stops_the_run()
    ensures start { shown_value div [] 10 ≡ Some (element 2 1 ("50" ∷ [])) }
    ensures one { shown_value div (click ∷ []) 10 ≡ Some (element 3 1 ("100" ∷ [])) }
    ensures stopped { run div (click ∷ click ∷ [])
        ≡ Stopped 2 (Node 10) (Cause.Fault DivideByZero) }
    ensures kept { shown_value div (click ∷ click ∷ []) 10 ≡ Some (element 3 1 ("100" ∷ [])) }
    ensures state_kept { shown_value div (click ∷ click ∷ []) 9 ≡ Some (int 1) }
    ensures later { run div (click ∷ click ∷ click ∷ [])
        ≡ Stopped 2 (Node 10) (Cause.Fault DivideByZero) }
    ensures still { shown_value div (click ∷ click ∷ click ∷ []) 9 ≡ Some (int 1) }
    ensures good { good div (click ∷ click ∷ click ∷ []) ≡ Some (click ∷ []) }
    ensures unchanged { shown_changed div (click ∷ click ∷ []) 9 ≡ false }
    ensures fixed { shown_value div_fixed (click ∷ click ∷ []) 10 ≡ Some (element 1 1 ("0" ∷ [])) }
    ensures negative { shown_value div_fixed (click ∷ click ∷ click ∷ []) 10
        ≡ Some (element 4 1 ("-100" ∷ [])) }
    ensures range { run int_range (sent (minus 9223372036854775808) ∷ [])
        ≡ Stopped 1 (Node 10) (Cause.Fault IntRange) }
    ensures range_kept { shown_value int_range (sent (minus 9223372036854775808) ∷ []) 10
        ≡ Some (element 2 1 ("-1" ∷ [])) }
{}

/// A signal without repeats changes where its input isn't equal to its value; functions have no equality.
pub fn repeats_are_dropped()
    ensures same { shown_value record_port (sent (record_of (("x", int 0) ∷ ("y", int 0) ∷ [])) ∷ []) 12
        ≡ Some (element 1 1 ("0" ∷ [])) }
    ensures other { shown_value record_port (sent (record_of (("x", int 1) ∷ ("y", int 2) ∷ [])) ∷ []) 12
        ≡ Some (element 1 1 ("1" ∷ [])) }
    ensures twice { shown_value record_port
        (sent (record_of (("x", int 1) ∷ ("y", int 2) ∷ [])) ∷ sent
        (record_of (("x", int 1) ∷ ("y", int 2) ∷ [])) ∷ []) 12
        ≡ Some (element 1 1 ("1" ∷ [])) }
    ensures functions { run function_equality (moved (int 1) (int 1) ∷ []) ≡ Stopped 1 (Node 10)
        (Cause.Fault FunctionEquality) }
    ensures kept { shown_value function_equality (moved (int 1) (int 1) ∷ []) 11
        ≡ Some (element 2 1 ("ok" ∷ [])) }
    ensures start { run function_equality [] ≡ Running }
{}

/// Each top value has the same fuel. A fault of one stops the run at event 0, where nothing is shown.
pub fn top_values_have_fuel()
    ensures enough { run (loop_fuel 22) [] ≡ Running }
    ensures short { run (loop_fuel 21) [] ≡ Stopped 0 (Top 10) (Cause.Fault OutOfFuel) }
    ensures nothing { good (loop_fuel 21) (click ∷ []) ≡ None }
    ensures no_value { shown_value (loop_fuel 21) (click ∷ []) 3 ≡ None }
    ensures library { run (loop_fuel 1) [] ≡ Stopped 0 (Top 3) (Cause.Fault OutOfFuel) }
{}

/// A function is called where an input changed and not else, so a log isn't repeated. The logs are those of the event.
pub fn logs_come_with_changes()
    ensures start { logs logged_x [] ≡ (bytes "x", bytes "0") ∷ [] }
    ensures first { shown_value logged_x [] 11 ≡ Some (element 5 1 ("(0,0)" ∷ [])) }
    ensures click { logs logged_x (click ∷ []) ≡ [] }
    ensures shown { shown_value logged_x (click ∷ []) 11 ≡ Some (element 5 1 ("(0,1)" ∷ [])) }
    ensures moved { logs logged_x (moved (int 4) (int 0) ∷ click ∷ [])
        ≡ (bytes "x", bytes "4") ∷ [] }
    ensures no_watch { watches logged_x (moved (int 4) (int 0) ∷ []) ≡ [] }
{}

/// Notes come up to the fault, in the order of nodes; after a stop there are none.
pub fn notes_come_up_to_the_fault()
    ensures before { logs logged_down (click ∷ [])
        ≡ (bytes "n", bytes "1") ∷ (bytes "c", bytes "()") ∷ [] }
    ensures fault { logs logged_down (click ∷ click ∷ []) ≡ (bytes "n", bytes "0") ∷ [] }
    ensures later { logs logged_down (click ∷ click ∷ click ∷ []) ≡ [] }
    ensures stopped { run logged_down (click ∷ click ∷ [])
        ≡ Stopped 2 (Node 10) (Cause.Fault DivideByZero) }
{}

/// The notes of event 0 are those of the top values, then those of the nodes; a fault of a top value ends them.
pub fn top_values_note_first()
    ensures nodes_behind { logs (logging_tops []) []
        ≡ (bytes "a", bytes "1") ∷ (bytes "b", bytes "2") ∷ (bytes "n", bytes "0") ∷ [] }
    ensures fault { logs
        (logging_tops (divided (log "c" (number 3)) (number 0) ∷ log "d" (number 4) ∷ [])) []
        ≡ (bytes "a", bytes "1") ∷ (bytes "b", bytes "2") ∷ (bytes "c", bytes "3") ∷ [] }
    ensures stopped { run (logging_tops (divided (number 3) (log "c" (number 0)) ∷ [])) []
        ≡ Stopped 0 (Top 12) (Cause.Fault DivideByZero) }
{}

/// The watch table has the last text of each tag, in the order of first record.
pub fn watches_keep_their_order()
    ensures start { watches two_watches [] ≡ (bytes "x", bytes "0") ∷ [] }
    ensures second { watches two_watches (click ∷ [])
        ≡ (bytes "x", bytes "0") ∷ (bytes "count", bytes "1") ∷ [] }
    ensures changed { watches two_watches (moved (int 5) (int 0) ∷ click ∷ [])
        ≡ (bytes "x", bytes "5") ∷ (bytes "count", bytes "1") ∷ [] }
    ensures no_logs { logs two_watches (click ∷ []) ≡ [] }
{}

/// A filter keeps its value where the test doesn't hold, and begins with the other value then.
pub fn filters_keep_what_passes()
    ensures start { shown_value positive_x [] 9 ≡ Some (int 7) }
    ensures passes { shown_value positive_x (moved (int 5) (int 0) ∷ []) 9 ≡ Some (int 5) }
    ensures stays { shown_value positive_x (moved (minus 1) (int 0) ∷ moved (int 5) (int 0) ∷ []) 9
        ≡ Some (int 5) }
    ensures unchanged { shown_changed positive_x (moved (minus 1) (int 0) ∷ []) 9 ≡ false }
    ensures changed { shown_changed positive_x (moved (int 5) (int 0) ∷ []) 9 ≡ true }
    ensures maybe_start { shown_value doubled_x [] 9 ≡ Some (int 7) }
    ensures maybe_passes { shown_value doubled_x (moved (int 5) (int 0) ∷ []) 9 ≡ Some (int 10) }
    ensures maybe_stays { shown_value doubled_x (moved (minus 1) (int 0) ∷ moved (int 5) (int 0) ∷ []) 9
        ≡ Some (int 10) }
    ensures maybe_unchanged { shown_changed doubled_x (moved (minus 1) (int 0) ∷ []) 9 ≡ false }
{}

/// A sample changes where its first signal does. An input event is a change also where its value is the same; a constant
/// never changes.
pub fn samples_inputs_and_constants()
    ensures start { shown_value sampled_x [] 9 ≡ Some (int 0) }
    ensures waits { shown_value sampled_x (moved (int 5) (int 0) ∷ []) 9 ≡ Some (int 0) }
    ensures taken { shown_value sampled_x (click ∷ moved (int 5) (int 0) ∷ []) 9 ≡ Some (int 5) }
    ensures constant { shown_value steady (click ∷ []) 9 ≡ Some (int 7) }
    ensures steady { shown_changed steady (moved (int 0) (int 0) ∷ []) 9 ≡ false }
    ensures equal { shown_value steady (moved (int 0) (int 0) ∷ moved (int 0) (int 0) ∷ []) 10
        ≡ Some (int 2) }
    ensures other { shown_changed steady (click ∷ []) 10 ≡ false }
    ensures window { shown_value steady [] 7 ≡ Some (int 80) }
    ensures no_start { changed (network steady) [] 9 ≡ false }
    ensures value { value (network steady) [] 0 ≡ tuple (int 0 ∷ int 0 ∷ []) }
    ensures pending { pending (network steady) (click ∷ []) 0 ≡ [] }
{}

/// Each call of a node has the same fuel, and so has the comparison of a signal without repeats, which spends the pairs
/// visited.
pub fn nodes_have_fuel()
    ensures calls { run (text_repeats 3) [] ≡ Running }
    ensures enough { run (text_repeats 3) (sent (text "ab") ∷ []) ≡ Running }
    ensures short { run (text_repeats 2) (sent (text "ab") ∷ [])
        ≡ Stopped 1 (Node 10) (Cause.Fault OutOfFuel) }
    ensures differs { shown_value (text_repeats 2) (sent (text "b") ∷ []) 10 ≡ Some (text "b") }
{}

/// An ill-typed program stops where there is no rule; a well-typed one never does.
pub fn want_of_a_rule_stops_a_run()
    ensures top { run (program (Local 0 ∷ [])) [] ≡ Stopped 0 (Top 9) Cause.NoRule }
    ensures function { run (program (map (number 1) mouse_x ∷ [])) []
        ≡ Stopped 0 (Node 9) Cause.NoRule }
    ensures test { run (program (filter (of_one (Local 0)) 7 mouse_x ∷ [])) []
        ≡ Stopped 0 (Node 9) Cause.NoRule }
    ensures maybe { run (program (filter_map (of_one (Local 0)) 7 mouse_x ∷ [])) []
        ≡ Stopped 0 (Node 9) Cause.NoRule }
{}
