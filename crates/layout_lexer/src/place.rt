//! Places in a text, and the faults that name their line.

ghost use Rattle.std.specs.Prelude.{◌≡◌, []};
ghost use Rattle.layout_lexer.specs.Places.{place_after, step as step_of, steps as steps_of};

use crate::byte_class::is_continuation;
use elm_base::{At, FaultKind};

/// What is wrong with a text, and the line where the faulty token, tab or byte stands.
#[derive(Clone, Copy, Debug, PartialEq, Eq)]
pub struct TextFault {
    pub line: u32,
    pub kind: FaultKind,
}

/// The place where a text begins.
#[tactic(auto, unfolding(crate::specs::Places::place_after))]
pub fn start() -> At
    ensures { result ≡ place_after [] }
{
    At { line: 1, column: 1 }
}

/// The place after these bytes, which stand at a place. A count stands still at the greatest u32.
pub fn place_from(at: At, bytes: &[u8]) -> At
    ensures { result ≡ steps_of at bytes.now }
{
    let mut at = at;
    let mut left = bytes;
    while let [first, rest @ ..] = left {
        at = step(at, *first);
        left = rest;
    }
    at
}

fn step(at: At, byte: u8) -> At
    ensures { result ≡ step_of at byte }
{
    if byte == b'\n' {
        At {
            line: at.line.saturating_add(1),
            column: 1,
        }
    } else if is_continuation(byte) {
        at
    } else {
        At {
            line: at.line,
            column: at.column.saturating_add(1),
        }
    }
}
