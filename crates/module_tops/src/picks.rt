//! What a list of exposed names picks.
ghost use Rattle.std.specs.Prelude.{◌≡◌};
ghost use Rattle.std.specs.List.{list_any};
ghost use Rattle.module_tops.specs.Picks as spec;

use crate::top::{Kind, Top};
use elm_base::{Constructors, Exposing, Item, Name, Spot};

/// Whether the name is among these.
pub fn is_named(spots: &[Spot], name: &[u8]) -> bool
    ensures { result ≡ spec.is_named spots.now name.now }
{
    spots.iter().any(|spot| spot.name.bytes() == name)
}

fn speaks_of(constructors: &Constructors, name: &[u8]) -> bool
    ensures { result ≡ spec.speaks_of constructors.now name.now }
{
    match constructors {
        Constructors::Hidden => false,
        Constructors::All => true,
        Constructors::Listed(spots) => is_named(spots.as_slice(), name),
    }
}

fn picks_of_type(ty: &[u8], constructors: &Constructors, kind: &Kind, name: &[u8]) -> bool
    ensures { result ≡ spec.picks_of_type ty.now constructors.now kind.now name.now }
{
    match kind {
        Kind::Value => false,
        Kind::Constructor { of } => of.bytes() == ty && speaks_of(constructors, name),
        Kind::Maker => name == ty,
    }
}

/// Whether the entry picks the name.
pub fn picks_top(item: &Item, top: &Top) -> bool
    ensures { result ≡ spec.picks item.now top.now }
{
    let name = top.spot.name.bytes();
    match item {
        Item::Value { name: written, .. } => name == written.bytes(),
        Item::Operator { name: written, .. } => name == written.bytes(),
        Item::Named {
            name: ty,
            constructors,
            ..
        } => picks_of_type(ty.bytes(), constructors, &top.kind, name),
    }
}

fn some_picks(items: &[Item], top: &Top) -> bool
    ensures { result ≡ list_any (λ item. spec.picks item top.now) items.now }
{
    for item in items {
        if picks_top(item, top) {
            return true;
        }
    }
    false
}

/// Whether the list of exposed names shows the name.
pub fn is_shown(exposes: &Exposing, top: &Top) -> bool
    ensures { result ≡ spec.shows exposes.now top.now }
{
    match exposes {
        Exposing::All => true,
        Exposing::Items(items) => some_picks(items.as_slice(), top),
    }
}
