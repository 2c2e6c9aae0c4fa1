//! What a program of signals means over a list of events: stage one, what each node says, what waits for asyncs, how a
//! run stops and what it notes.
//! The definitions stand in `specs/`. The functions here have no work to do: their contracts state worked runs and laws
//! of the definitions.
#![tactic(auto)]

mod signal_laws;
mod worked_runs;

pub use signal_laws::{
    a_node_answers_by_its_inputs, a_node_begins_by_its_inputs, a_running_run_is_good,
    a_stopped_run_stays, asyncs_keep_the_changes_of_their_signals, top_values_begin_in_turn,
    values_are_those_last_said,
};
pub use worked_runs::{
    a_delivery_may_find_nothing, a_fault_stops_the_run, a_queue_is_first_in_first_out,
    asyncs_are_numbered_by_themselves, clicks_are_counted, deliveries_come_in_the_order_of_events,
    filters_keep_what_passes, logs_come_with_changes, nodes_have_fuel, notes_come_up_to_the_fault,
    repeats_are_dropped, samples_inputs_and_constants, the_left_of_a_merge_counts,
    top_values_have_fuel, top_values_note_first, want_of_a_rule_stops_a_run,
    watches_keep_their_order,
};
