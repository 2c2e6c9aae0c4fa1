//! Missing cases: values that no pattern of a list fits.
#![tactic(auto)]

mod asked;
mod belong;
mod cases;
mod clash;
mod fill;
mod form;
mod found;
mod laws;
mod search;
mod skeleton;
mod warned;

pub use cases::{cases_are_sought, skeletons_are_missing, skeletons_clash};
pub use form::Form;
pub use found::missing;
pub use laws::{
    a_warning_stands_where_something_is_missing, warnings_stand_by_line_and_column,
    what_is_found_is_missing,
};
pub use skeleton::Skeleton;
pub use warned::warnings;
