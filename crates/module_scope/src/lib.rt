//! What each name of a project stands for, and the groups of its definitions; or the first fault of its names. `load`, which
//! reads the project, is handed on from `module_visits`.
#![tactic(auto)]

mod faults;
mod found;
mod laws;
mod meanings;
mod whole;

pub use laws::{
    names_are_looked_up_in_open_scopes, resolutions_are_determined, trees_close_their_scopes,
};
pub use module_visits::{LoadStop, load};
pub use whole::resolve;
