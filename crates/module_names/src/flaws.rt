//! What is wrong with a module's names.
ghost use Rattle.std.specs.Prelude.{◌≡◌, ◌∷◌, [], ◌++◌, OnOk, IfOk, map};
ghost use Rattle.std.specs.List.{flat_map};
ghost use Rattle.elm_base.specs.declared.fault.FaultKind.TheVariants as kind;
ghost use Rattle.module_names.specs.Flaws as spec;

use crate::face::Face;
use crate::found::Answer;
use crate::walk::Use;
use elm_base::{
    At, Constructors, Declaration, Exposing, FaultKind, Import, Item, Name, NoMemory, Spot,
};
use module_tops::{Kind, Top, is_named};
use name_steps::Step;
use sqlite_items::Items;
use std::alloc::Global;

/// A fault at a place of a module, and the name that it is about.
#[derive(Drop)]
pub struct Flaw {
    pub at: At,
    pub kind: FaultKind,
    pub name: Name,
}

fn push_flaw(
    alloc: Global,
    kind: FaultKind,
    at: At,
    name: &Name,
    out: &mut Items<Flaw>,
) -> Result<(), NoMemory>
    ensures { OnOk result (out.new ≡ out.old ++ spec.flaw_of kind at name.now ∷ []) }
{
    let name = name.copy(alloc)?;
    out.push(Flaw { at, kind, name })?;
    Ok(())
}

/// Appends a fault where a name stands that stands among those before it.
fn push_again(
    alloc: Global,
    before: &[Spot],
    spot: &Spot,
    out: &mut Items<Flaw>,
) -> Result<(), NoMemory>
    ensures { OnOk result (out.new ≡ out.old ++ spec.again before.now spot.now) }
{
    if !is_named(before, spot.name.bytes()) {
        return Ok(());
    }
    push_flaw(alloc, FaultKind::Duplicate, spot.at, &spot.name, out)
}

/// Appends a fault at each second place of a name.
pub fn push_repeated(alloc: Global, spots: &[Spot], out: &mut Items<Flaw>) -> Result<(), NoMemory>
    ensures { OnOk result (out.new ≡ out.old ++ spec.repeated [] spots.now) }
{
    for (at, spot) in spots.iter().enumerate() {
        push_again(alloc, &spots[..at], spot, out)?;
    }
    Ok(())
}

fn push_of_step(alloc: Global, step: &Step, out: &mut Items<Flaw>) -> Result<(), NoMemory>
    ensures { OnOk result (out.new ≡ out.old ++ spec.of_step step.now) }
{
    match step {
        Step::Binds { spots } => push_repeated(alloc, spots.as_slice(), out),
        Step::Labels { spots } => push_repeated(alloc, spots.as_slice(), out),
        _ => Ok(()),
    }
}

/// Appends the faults of names that stand twice in a pattern, a block or a record form.
pub fn push_of_steps(alloc: Global, steps: &[Step], out: &mut Items<Flaw>) -> Result<(), NoMemory>
    ensures { OnOk result (out.new ≡ out.old ++ spec.of_steps steps.now) }
{
    for step in steps {
        push_of_step(alloc, step, out)?;
    }
    Ok(())
}

fn push_of_parameters(
    alloc: Global,
    declaration: &Declaration,
    out: &mut Items<Flaw>,
) -> Result<(), NoMemory>
    ensures { OnOk result (out.new ≡ out.old ++ spec.of_parameters declaration.now) }
{
    match declaration {
        Declaration::Union { parameters, .. } => push_repeated(alloc, parameters.as_slice(), out),
        Declaration::Alias { parameters, .. } => push_repeated(alloc, parameters.as_slice(), out),
        _ => Ok(()),
    }
}

/// Appends the faults of type parameters that stand twice.
pub fn push_of_declarations(
    alloc: Global,
    declarations: &[Declaration],
    out: &mut Items<Flaw>,
) -> Result<(), NoMemory>
    ensures { OnOk result (out.new ≡ out.old ++ spec.of_declarations declarations.now) }
{
    for declaration in declarations {
        push_of_parameters(alloc, declaration, out)?;
    }
    Ok(())
}

fn push_of_use(alloc: Global, used: &Use, out: &mut Items<Flaw>) -> Result<(), NoMemory>
    ensures { OnOk result (out.new ≡ out.old ++ spec.of_use used.now) }
{
    match &used.answer {
        Answer::Stands { .. } => Ok(()),
        Answer::Unknown => {
            push_flaw(
                alloc,
                FaultKind::UnknownName,
                used.spot.at,
                &used.spot.name,
                out,
            )
        }
        Answer::Ambiguous => {
            push_flaw(
                alloc,
                FaultKind::Ambiguous,
                used.spot.at,
                &used.spot.name,
                out,
            )
        }
    }
}

/// Appends the faults of names that stand for nothing, or for different things.
pub fn push_of_uses(alloc: Global, uses: &[Use], out: &mut Items<Flaw>) -> Result<(), NoMemory>
    ensures { OnOk result (out.new ≡ out.old ++ spec.of_uses uses.now) }
{
    for used in uses {
        push_of_use(alloc, used, out)?;
    }
    Ok(())
}

/// Whether a constructor or a maker of this name and type is among them.
fn has_constructor(tops: &[Top], of: &[u8], name: &[u8]) -> bool
    ensures { result ≡ spec.has_constructor tops.now of.now name.now }
{
    for top in tops {
        if is_constructor(top, of, name) {
            return true;
        }
    }
    false
}

fn is_constructor(top: &Top, ty: &[u8], name: &[u8]) -> bool
    ensures { result ≡ spec.is_constructor top.now ty.now name.now }
{
    match &top.kind {
        Kind::Constructor { of } => of.bytes() == ty && top.spot.name.bytes() == name,
        _ => false,
    }
}

fn has_top(tops: &[Top], name: &[u8]) -> bool
    ensures { result ≡ spec.has_top tops.now name.now }
{
    for top in tops {
        if top.spot.name.bytes() == name {
            return true;
        }
    }
    false
}

fn push_listed(
    alloc: Global,
    kind: FaultKind,
    tops: &[Top],
    ty: &[u8],
    spots: &[Spot],
    out: &mut Items<Flaw>,
) -> Result<(), NoMemory>
    ensures { OnOk result (out.new ≡ out.old ++ spec.of_listed kind tops.now ty.now spots.now) }
{
    for spot in spots {
        if !has_constructor(tops, ty, spot.name.bytes()) {
            push_flaw(alloc, kind, spot.at, &spot.name, out)?;
        }
    }
    Ok(())
}

fn push_of_constructors(
    alloc: Global,
    kind: FaultKind,
    tops: &[Top],
    ty: &[u8],
    constructors: &Constructors,
    out: &mut Items<Flaw>,
) -> Result<(), NoMemory>
    ensures { OnOk result (out.new ≡ out.old
        ++ spec.of_constructors kind tops.now ty.now constructors.now) }
{
    match constructors {
        Constructors::Listed(spots) => push_listed(alloc, kind, tops, ty, spots.as_slice(), out),
        _ => Ok(()),
    }
}

fn push_of_value(
    alloc: Global,
    kind: FaultKind,
    tops: &[Top],
    at: At,
    name: &Name,
    out: &mut Items<Flaw>,
) -> Result<(), NoMemory>
    ensures { OnOk result (out.new ≡ out.old ++ spec.of_value kind tops.now at name.now) }
{
    if has_top(tops, name.bytes()) {
        return Ok(());
    }
    push_flaw(alloc, kind, at, name, out)
}

fn push_of_type(
    alloc: Global,
    kind: FaultKind,
    types: &[Spot],
    at: At,
    name: &Name,
    out: &mut Items<Flaw>,
) -> Result<(), NoMemory>
    ensures { OnOk result (out.new ≡ out.old ++ spec.of_type kind types.now at name.now) }
{
    if is_named(types, name.bytes()) {
        return Ok(());
    }
    push_flaw(alloc, kind, at, name, out)
}

fn push_of_item(
    alloc: Global,
    kind: FaultKind,
    tops: &[Top],
    types: &[Spot],
    item: &Item,
    out: &mut Items<Flaw>,
) -> Result<(), NoMemory>
    ensures { OnOk result (out.new ≡ out.old ++ spec.of_item kind tops.now types.now item.now) }
{
    match item {
        Item::Value { at, name } => push_of_value(alloc, kind, tops, *at, name, out),
        Item::Operator { at, name } => push_of_value(alloc, kind, tops, *at, name, out),
        Item::Named {
            at,
            name,
            constructors,
        } => {
            push_of_type(alloc, kind, types, *at, name, out)?;
            push_of_constructors(alloc, kind, tops, name.bytes(), constructors, out)
        }
    }
}

fn push_of_items(
    alloc: Global,
    kind: FaultKind,
    tops: &[Top],
    types: &[Spot],
    items: &[Item],
    out: &mut Items<Flaw>,
) -> Result<(), NoMemory>
    ensures { OnOk result (out.new ≡ out.old ++ spec.of_items kind tops.now types.now items.now) }
{
    for item in items {
        push_of_item(alloc, kind, tops, types, item, out)?;
    }
    Ok(())
}

/// Appends a fault of this kind for each entry of the list that isn't among these names of values and types.
pub fn push_of_list(
    alloc: Global,
    kind: FaultKind,
    tops: &[Top],
    types: &[Spot],
    exposes: &Exposing,
    out: &mut Items<Flaw>,
) -> Result<(), NoMemory>
    ensures { OnOk result (out.new ≡ out.old ++ spec.of_list kind tops.now types.now exposes.now) }
{
    match exposes {
        Exposing::All => Ok(()),
        Exposing::Items(items) => push_of_items(alloc, kind, tops, types, items.as_slice(), out),
    }
}
