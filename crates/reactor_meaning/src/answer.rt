use elm_base::CommandRefusal;

/// The answer to a line of a script.
#[derive(Drop)]
pub enum Answer {
    /// The frame of the state that the command left is shown.
    Shown,
    /// The line is refused for this reason, and nothing has changed.
    Refused(CommandRefusal),
}
