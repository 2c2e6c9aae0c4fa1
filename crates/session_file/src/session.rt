//! Sessions, as they are read and written.
use elm_base::Event;
use thiserror::Error;

/// The bytes are no session.
#[derive(Clone, Copy, Debug, PartialEq, Eq, Error)]
#[error("no session")]
pub struct BadSession;

/// Recorded events, and how many of them stand before the shown moment.
#[derive(Drop)]
pub struct Session {
    pub cursor: u32,
    pub events: Vec<Event>,
}
