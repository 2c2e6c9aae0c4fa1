//! Whether one definition of a block refers to another.
ghost use Rattle.std.specs.Prelude.{◌≡◌, ◌<◌, length, slice_get};
ghost use Rattle.module_blocks.specs.Refers as spec;

use elm_base::{At, Name, Spot, Thing};
use module_names::{Answer, Use};
use name_steps::Defined;
use sqlite_items::at;

/// Whether a place stands before another.
pub fn comes_before(place: At, other: At) -> bool
    ensures { result ≡ spec.comes_before place other }
{
    place.line < other.line || (place.line == other.line && place.column < other.column)
}

fn is_within(start: At, end: At, place: At) -> bool
    ensures { result ≡ spec.is_within start end place }
{
    !comes_before(place, start) && comes_before(place, end)
}

fn is_place(place: At, other: At) -> bool
    ensures { result ≡ spec.is_place place other }
{
    place.line == other.line && place.column == other.column
}

/// Whether the thing is what this name is bound to, in a block of this module.
fn is_bound(module: &Name, thing: &Thing, spot: &Spot) -> bool
    ensures { result ≡ spec.is_bound «module».now thing.now spot.now }
{
    match thing {
        Thing::Local { binder } => is_place(*binder, spot.at),
        Thing::Top { module: home, name } => home.bytes() == module.bytes()
            && name.bytes() == spot.name.bytes(),
        _ => false,
    }
}

fn some_bound(module: &Name, thing: &Thing, spots: &[Spot]) -> bool
    ensures { result ≡ spec.some_bound «module».now thing.now spots.now }
{
    for spot in spots {
        if is_bound(module, thing, spot) {
            return true;
        }
    }
    false
}

fn stands_for(module: &Name, answer: &Answer, spots: &[Spot]) -> bool
    ensures { result ≡ spec.stands_for «module».now answer.now spots.now }
{
    match answer {
        Answer::Stands { thing } => some_bound(module, thing, spots),
        _ => false,
    }
}

/// Whether a use stands for what the definition with this number binds.
pub fn names_one(module: &Name, used: &Use, definitions: &[Defined], b: usize) -> bool
    ensures { result ≡ spec.names_one «module».now used.now.answer (slice_get definitions.now b) }
{
    match at(definitions, b) {
        None => false,
        Some(defined) => stands_for(module, &used.answer, defined.binds.as_slice()),
    }
}

/// Where the definition with this number begins; behind the last one, where the block's definitions end.
fn start_of(definitions: &[Defined], end: At, a: usize) -> At
    ensures { result ≡ spec.place_or end (slice_get definitions.now a) }
{
    match at(definitions, a) {
        None => end,
        Some(defined) => defined.at,
    }
}

/// Whether a use stands in the definition with this number.
pub fn stands_in(used: &Use, definitions: &[Defined], end: At, a: usize) -> bool
    requires { a < length definitions.now }
    ensures { result ≡ spec.stands_in used.now definitions.now end a }
{
    is_within(
        start_of(definitions, end, a),
        start_of(definitions, end, a + 1),
        used.spot.at,
    )
}
