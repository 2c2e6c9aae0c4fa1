//! The form of a session file: what its JSON has to look like, before anything in it is understood.
#![tactic(auto)]

mod laws;
mod lists;
mod making;
mod sheet;
mod worked;

pub use laws::a_sheet_has_one_content;
pub use lists::{delivery_of, input_of, named_of, place_of};
pub use making::{delivery_value, input_value, named_value, sheet_value};
pub use sheet::{Sheet, sheet_of};
pub use worked::forms_are_as_worked;
