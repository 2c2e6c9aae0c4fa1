use thiserror::Error;

/// No types solve what is asked.
#[derive(Clone, Copy, Debug, PartialEq, Eq, Error)]
#[error("no solution")]
pub struct NoSolution;
