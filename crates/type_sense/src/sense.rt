//! Whether a type makes sense.
ghost use Rattle.std.specs.Prelude.{◌≡◌, ◌↔◌, ◌&&◌, IfOk, true};
ghost use Rattle.std.specs.List.{list_all};
ghost use Rattle.written_sorts.specs.Sorting.{MakesSense};
ghost use Rattle.written_sorts.specs.Forced.{marks_of};
ghost use Rattle.type_sense.specs.Parameters as parameters;
ghost use Rattle.type_sense.specs.WrittenOf.{written_of};

use crate::judged::Judged;
use crate::judging::{is_marked, judge};
use crate::parameters::with_parameters;
use elm_base::{Name, NoMemory, TypeTree};
use sqlite_items::Items;
use std::alloc::Global;

fn all_marked(marks: &[Name], names: &[Name]) -> bool
    ensures { result ≡ list_all (marks_of marks.now) names.now }
{
    for name in names {
        if !is_marked(marks, name.bytes()) {
            return false;
        }
    }
    true
}

fn is_sense(found: &Judged) -> bool
    ensures { result ≡ (found.now.bars && found.now.holds) }
{
    found.bars && found.holds
}

/// Whether a type without aliases makes sense: each variable before a bar may stand for any type, and some sorts of its variables
/// make it well sorted, so that some instance of it is.
pub fn makes_sense(alloc: Global, tree: &TypeTree) -> Result<bool, NoMemory>
    ensures { IfOk result (λ sense. (sense ≡ true) ↔ MakesSense (written_of tree.now)) }
{
    let mut marks = Items::new(alloc);
    for _turn in 0..u64::MAX {
        let found = judge(alloc, tree, marks.as_slice())?;
        if all_marked(marks.as_slice(), found.forced.as_slice()) {
            return Ok(is_sense(&found));
        }
        marks.append(found.forced)?;
    }
    // Each turn marked a variable: so many don't fit in memory.
    Err(NoMemory)
}

/// Whether the text of an alias makes sense, its parameters being variables of which a name that begins with `number` says nothing.
pub fn alias_makes_sense(alloc: Global, tree: &TypeTree) -> Result<bool, NoMemory>
    ensures { IfOk result (λ sense. (sense ≡ true)
        ↔ MakesSense (written_of (parameters.with_parameters tree.now))) }
{
    let renamed = with_parameters(alloc, tree)?;
    makes_sense(alloc, &renamed)
}
