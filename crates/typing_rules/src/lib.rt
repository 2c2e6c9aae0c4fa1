//! What it is to be well typed.
//! The definitions stand in `specs/`. The functions here have no work to do: their contracts state worked cases and
//! laws of the definitions.
#![tactic(auto)]

mod annotation_cases;
mod form_cases;
mod let_cases;
mod pattern_cases;
mod record_cases;
mod signature_cases;
mod sort_cases;
mod value_cases;

pub use annotation_cases::{
    annotations_are_kept, variables_have_chosen_sorts, variables_have_their_flags,
};
pub use form_cases::{
    branches_have_one_type, elements_have_one_type, makers_are_held_to_their_types,
    names_and_calls_have_types,
};
pub use let_cases::{
    definitions_are_generalised, definitions_keep_their_surroundings, no_let_hides_a_signal,
};
pub use pattern_cases::{constructors_have_types, patterns_fit_types};
pub use record_cases::the_newest_field_counts;
pub use signature_cases::{
    a_default_has_the_type_of_what_is_given, a_joining_is_of_appendable_types,
    an_equality_is_of_any_type, an_order_is_of_comparable_types, natives_have_types,
};
pub use sort_cases::{no_call_hides_a_signal, no_case_hides_a_signal, no_part_is_a_signal};
pub use value_cases::{
    functions_have_types, signals_have_the_types_of_their_nodes, values_have_types,
};
