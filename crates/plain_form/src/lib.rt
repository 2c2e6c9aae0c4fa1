//! The plain form of the trees of a program's text.
//! The definitions stand in `specs/`. The functions here have no work to do: their contracts state laws of the
//! definitions, one for each form, and worked cases.
#![tactic(auto)]

mod calls_laws;
mod forms_laws;
mod functions_laws;
mod names_laws;
mod naming_cases;
mod numbering_cases;
mod numbering_laws;
mod patterns_laws;

pub use calls_laws::{calls_take_one_argument_each, operators_are_calls};
pub use forms_laws::{
    blocks_are_their_groups_in_order, other_forms_keep_their_parts, records_keep_their_fields,
};
pub use functions_laws::functions_have_one_parameter_each;
pub use names_laws::names_stand_for_their_things;
pub use naming_cases::{
    groups_stand_in_order, lists_are_nested, places_are_looked_up, uses_are_what_they_stand_for,
};
pub use numbering_cases::{binders_are_numbered_by_place, places_are_ordered};
pub use numbering_laws::{
    binders_stand_in_parts, different_binders_have_different_numbers, names_of_patterns_are_binders,
};
pub use patterns_laws::patterns_stand_form_by_form;
