ghost use Rattle.std.specs.Prelude.{◌≡◌, ◌+◌, [], ◌∷◌, ◌++◌, length, OnOk};

use crate::Counter;
use elm_base::{NoMemory, Steps};
use snapshots::History;
use std::sync::ledger::Ledger;

/// Records an event behind all others, wherever the cursor stands. The history goes to its end first, since an event may be
/// pushed there alone.
pub fn record<L: Ledger>(
    history: &mut History<Counter>,
    event: u32,
    steps: &mut Steps<L>,
) -> Result<(), NoMemory>
    ensures events { OnOk result (history.new.events ≡ history.old.events ++ event ∷ []) }
    ensures cursor { OnOk result (history.new.cursor ≡ length history.old.events + 1) }
{
    history.latest();
    history.push(event, steps)
}
