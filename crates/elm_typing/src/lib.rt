//! What types mean: the ground types, their sorts, and rows of fields with scoped labels.
//! The definitions stand in `specs/`. The functions here have no work to do: their contracts state laws
//! of the definitions.
#![tactic(auto)]

mod flag;
mod flag_laws;
mod row_laws;
mod sort_laws;
mod type_cases;

pub use flag::Flag;
pub use flag_laws::{
    appendable_types, comparable_types, flags_of_other_types, joined_flags_ask_for_both,
};
pub use row_laws::{
    a_new_field_keeps_the_order, a_new_field_stands_in_front, fields_of_different_labels_commute,
    fields_without_common_labels_have_one_answer, rows_in_order_are_maps,
};
pub use sort_laws::{flagged_types_are_simple, sorts_of_types, well_sorted_types};
pub use type_cases::{
    fields_stand_in_order, flags_ask_of_types, functions_may_be_well_sorted,
    library_types_have_names, lists_of_fields_may_stand_apart, parts_are_simple,
    rows_have_scoped_labels, simple_is_below_signal, some_types_are_appendable,
    some_types_are_comparable, types_have_sorts,
};
