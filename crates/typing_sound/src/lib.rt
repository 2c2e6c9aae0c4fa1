//! Laws of typing: a well-typed program never meets an ill-typed value.
//! The functions here have no work to do: their contracts state laws of the definitions.
#![tactic(auto)]

mod erasing_laws;
mod native_laws;
mod pattern_laws;
mod program_cases;
mod rewriting_laws;
mod soundness_laws;
mod source_laws;
mod surroundings_laws;
mod top_laws;

pub use erasing_laws::erasing_keeps_types;
pub use native_laws::natives_are_safe;
pub use pattern_laws::patterns_bind_typed_values;
pub use program_cases::groups_stand_one_after_the_other;
pub use rewriting_laws::{
    alias_makers_have_the_instances_of_their_types, field_functions_take_records,
    tuple_makers_take_the_parts_in_turn,
};
pub use soundness_laws::{
    equations_are_well_typed_in_order, simple_terms_make_no_node,
    values_have_the_types_of_their_terms, well_typed_calls_are_safe, well_typed_terms_are_safe,
    well_typed_terms_have_rules,
};
pub use source_laws::{
    blocks_have_the_types_of_their_groups, functions_have_the_types_of_nested_lambdas,
    list_patterns_fit_lists, names_have_the_types_of_their_things,
    operators_have_the_types_of_calls,
};
pub use surroundings_laws::{
    more_surroundings_type_no_less, only_used_names_matter, substitution_keeps_types,
};
pub use top_laws::{
    a_value_joins_the_top_values, functions_join_the_top_values, stage_one_is_safe,
    the_first_group_needs_no_values,
};
