//! What imports give for a name.
ghost use Rattle.std.specs.Prelude.{◌≡◌, ◌∷◌, [], ◌++◌, OnOk, IfOk, map};
ghost use Rattle.std.specs.List.{flat_map};
ghost use Rattle.elm_base.specs.declared.tree.Exposing.TheVariants as exposing;
ghost use Rattle.module_names.specs.Lookup as spec;

use crate::face::Face;
use elm_base::{Exposing, Import, Name, NoMemory, Thing};
use module_tops::{Kind, Top, is_shown};
use sqlite_items::Items;
use std::alloc::Global;

fn thing_by(kind: &Kind, module: Name, name: Name) -> Thing
    ensures { result ≡ spec.thing_by kind.now «module» name }
{
    match kind {
        Kind::Value => Thing::Top { module, name },
        Kind::Constructor { .. } => Thing::Constructor { module, name },
        Kind::Maker => Thing::Maker { module, name },
    }
}

fn thing_of(alloc: Global, module: &Name, top: &Top) -> Result<Thing, NoMemory>
    ensures { IfOk result (λ given. given ≡ spec.thing_of «module».now top.now) }
{
    let module = module.copy(alloc)?;
    let name = top.spot.name.copy(alloc)?;
    Ok(thing_by(&top.kind, module, name))
}

/// Appends what the names of a module that the list picks give for a name.
pub fn push_given(
    alloc: Global,
    module: &Name,
    tops: &[Top],
    picks: &Exposing,
    name: &[u8],
    out: &mut Items<Thing>,
) -> Result<(), NoMemory>
    ensures { OnOk result (out.new ≡ out.old
        ++ spec.given_by «module».now tops.now picks.now name.now) }
{
    for top in tops {
        if top.spot.name.bytes() == name && is_shown(picks, top) {
            out.push(thing_of(alloc, module, top)?)?;
        }
    }
    Ok(())
}

fn push_given_from(
    alloc: Global,
    faces: &[Face],
    module: &[u8],
    picks: &Exposing,
    name: &[u8],
    out: &mut Items<Thing>,
) -> Result<(), NoMemory>
    ensures { OnOk result (out.new ≡ out.old
        ++ spec.given_from faces.now «module».now picks.now name.now) }
{
    for face in faces {
        if face.name.bytes() == module {
            push_given(alloc, &face.name, face.tops.as_slice(), picks, name, out)?;
        }
    }
    Ok(())
}

fn push_opened_by(
    alloc: Global,
    faces: &[Face],
    import: &Import,
    name: &[u8],
    out: &mut Items<Thing>,
) -> Result<(), NoMemory>
    ensures { OnOk result (out.new ≡ out.old
        ++ spec.opened_by faces.now import.now.«module» import.now.exposes name.now) }
{
    match &import.exposes {
        None => Ok(()),
        Some(picks) => push_given_from(alloc, faces, import.module.bytes(), picks, name, out),
    }
}

/// Appends what the imports give for a name without a module's before it.
pub fn push_opened(
    alloc: Global,
    faces: &[Face],
    imports: &[Import],
    name: &[u8],
    out: &mut Items<Thing>,
) -> Result<(), NoMemory>
    ensures { OnOk result (out.new ≡ out.old ++ spec.opened faces.now imports.now name.now) }
{
    for import in imports {
        push_opened_by(alloc, faces, import, name, out)?;
    }
    Ok(())
}

/// Whether the import's module is reached by this name.
fn is_reached(import: &Import, qualifier: &[u8]) -> bool
    ensures { result ≡ spec.is_reached import.now qualifier.now }
{
    match &import.alias {
        None => import.module.bytes() == qualifier,
        Some(alias) => alias.bytes() == qualifier,
    }
}

fn push_reached_by(
    alloc: Global,
    faces: &[Face],
    import: &Import,
    qualifier: &[u8],
    name: &[u8],
    out: &mut Items<Thing>,
) -> Result<(), NoMemory>
    ensures { OnOk result (out.new ≡ out.old
        ++ spec.reached_by faces.now import.now qualifier.now name.now) }
{
    if !is_reached(import, qualifier) {
        return Ok(());
    }
    let picks = Exposing::All;
    push_given_from(alloc, faces, import.module.bytes(), &picks, name, out)
}

/// Appends what the imports that are reached by this name give.
pub fn push_reached(
    alloc: Global,
    faces: &[Face],
    imports: &[Import],
    qualifier: &[u8],
    name: &[u8],
    out: &mut Items<Thing>,
) -> Result<(), NoMemory>
    ensures { OnOk result (out.new ≡ out.old
        ++ spec.reached faces.now imports.now qualifier.now name.now) }
{
    for import in imports {
        push_reached_by(alloc, faces, import, qualifier, name, out)?;
    }
    Ok(())
}
