//! The fields that two rows share, and those that one of them has alone.

ghost use Rattle.std.specs.Prelude.{◌≡◌, ◌++◌, List, length, IfOk};
ghost use Rattle.type_unify.specs.declared.pair.Pair.{Pair};
ghost use Rattle.type_unify.specs.Matching.{IsFirstPlace, Matches};

use crate::pair::Pair;
use elm_base::{Name, NoMemory};
use sqlite_items::Items;
use std::alloc::Global;
use type_terms::TermId;

/// The place of the newest field of the label.
fn place_of(fields: &[(Name, TermId)], label: &[u8]) -> Option<usize>
    ensures { IsFirstPlace fields.now label.now result }
{
    for (at, field) in fields.iter().enumerate() {
        if field.0.is(label) {
            return Some(at);
        }
    }
    None
}

/// Takes the fields that both rows have out of the right row, and puts their types in pairs, newest with newest.
/// The answer is what the left row has alone; what the right row has alone is left in it.
pub fn match_fields(
    alloc: Global,
    left: &[(Name, TermId)],
    right: &mut Items<(Name, TermId)>,
    waiting: &mut Items<Pair>,
) -> Result<Items<(Name, TermId)>, NoMemory>
    ensures { IfOk result (λ extra. (pairs : List Pair) × (waiting.new ≡ waiting.old ++ pairs)
        × Matches left.now right.old pairs extra right.new) }
{
    let mut extra = Items::new(alloc);
    for field in left {
        match place_of(right.as_slice(), field.0.bytes()) {
            Some(at) => {
                let other = right.remove(at);
                waiting.push(Pair {
                    first: field.1,
                    second: other.1,
                })?;
            }
            None => extra.push((field.0.copy(alloc)?, field.1))?,
        }
    }
    Ok(extra)
}
