//! What a module shows to those that import it.
ghost use Rattle.std.specs.Prelude.{◌≡◌, IfOk};
ghost use Rattle.module_names.specs.Faces as spec;

use elm_base::{Exposing, Item, Module, Name, NoMemory, Spot};
use module_tops::{Kind, Top, is_shown, tops, types};
use sqlite_items::Items;
use std::alloc::Global;

/// A module as others see it: the names of values and of types that it shows.
#[derive(Drop)]
pub struct Face {
    pub name: Name,
    pub tops: Items<Top>,
    pub types: Items<Spot>,
}

fn copy_kind(alloc: Global, kind: &Kind) -> Result<Kind, NoMemory>
    ensures { IfOk result (λ copied. copied ≡ kind.now) }
{
    match kind {
        Kind::Value => Ok(Kind::Value),
        Kind::Maker => Ok(Kind::Maker),
        Kind::Constructor { of } => {
            let of = of.copy(alloc)?;
            Ok(Kind::Constructor { of })
        }
    }
}

fn copy_top(alloc: Global, top: &Top) -> Result<Top, NoMemory>
    ensures { IfOk result (λ copied. copied ≡ top.now) }
{
    let spot = top.spot.copy(alloc)?;
    let kind = copy_kind(alloc, &top.kind)?;
    Ok(Top { spot, kind })
}

fn shown_tops(alloc: Global, exposes: &Exposing, found: &[Top]) -> Result<Items<Top>, NoMemory>
    ensures { IfOk result (λ shown. shown ≡ spec.shown_tops exposes.now found.now) }
{
    let mut shown = Items::new(alloc);
    for top in found {
        if is_shown(exposes, top) {
            shown.push(copy_top(alloc, top)?)?;
        }
    }
    Ok(shown)
}

/// Whether the entry picks a type of this name.
pub fn picks_type(item: &Item, name: &[u8]) -> bool
    ensures { result ≡ spec.picks_type item.now name.now }
{
    match item {
        Item::Named { name: written, .. } => written.bytes() == name,
        _ => false,
    }
}

fn some_picks_type(items: &[Item], name: &[u8]) -> bool
    ensures { result ≡ spec.some_picks_type items.now name.now }
{
    for item in items {
        if picks_type(item, name) {
            return true;
        }
    }
    false
}

fn is_shown_type(exposes: &Exposing, name: &[u8]) -> bool
    ensures { result ≡ spec.shows_type exposes.now name.now }
{
    match exposes {
        Exposing::All => true,
        Exposing::Items(items) => some_picks_type(items.as_slice(), name),
    }
}

fn shown_types(alloc: Global, exposes: &Exposing, found: &[Spot]) -> Result<Items<Spot>, NoMemory>
    ensures { IfOk result (λ shown. shown ≡ spec.shown_types exposes.now found.now) }
{
    let mut shown = Items::new(alloc);
    for spot in found {
        if is_shown_type(exposes, spot.name.bytes()) {
            shown.push(spot.copy(alloc)?)?;
        }
    }
    Ok(shown)
}

/// What a module shows.
pub fn face_of(alloc: Global, module: &Module) -> Result<Face, NoMemory>
    ensures { IfOk result (λ face. face ≡ spec.face_of «module».now) }
{
    let found = tops(alloc, module)?;
    let tops = shown_tops(alloc, &module.exposes, found.as_slice())?;
    let found = types(alloc, module.declarations.as_slice())?;
    let types = shown_types(alloc, &module.exposes, found.as_slice())?;
    let name = module.name.copy(alloc)?;
    Ok(Face { name, tops, types })
}
