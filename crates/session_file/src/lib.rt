//! Session files: which bytes are a session, reading them, and writing them.
#![tactic(auto)]

mod bounds;
mod copies;
mod events;
mod inputs;
mod laws;
mod order;
mod reading;
mod session;
mod uses;
mod worked;
mod writing;

pub use laws::{
    a_literals_value_is_of_its_type, a_session_may_be_written_again, bytes_spell_one_session,
    events_use_few_inputs, inputs_are_in_the_order_of_first_use, what_spells_a_session_is_read,
};
pub use reading::read;
pub use session::{BadSession, Session};
pub use worked::uses_are_as_worked;
pub use writing::write;
