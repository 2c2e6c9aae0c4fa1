//! All that is known of a module's names.
ghost use Rattle.std.specs.Prelude.{◌≡◌, ◌++◌, [], OnOk, IfOk, map};
ghost use Rattle.std.specs.List.{flat_map};
ghost use Rattle.module_names.specs.Named as spec;
ghost use Rattle.module_names.specs.Lookup.{scope_of};
ghost use Rattle.module_names.specs.Walks.{uses_in};

use crate::defaults::defaults_for;
use crate::face::Face;
use crate::flaws::{
    Flaw, push_of_declarations, push_of_list, push_of_steps, push_of_uses, push_repeated,
};
use crate::lookup::Scope;
use crate::walk::{Use, Walk};
use elm_base::{Declaration, FaultKind, Import, Module, NoMemory, Spot};
use module_tops::{Top, tops, types};
use name_steps::{Step, push_declaration};
use sqlite_items::Items;
use std::alloc::Global;

/// What happens to names in a module, what each use stands for, and what is wrong with its names.
#[derive(Drop)]
pub struct Named {
    pub steps: Items<Step>,
    pub uses: Items<Use>,
    pub flaws: Items<Flaw>,
}

fn steps_of(alloc: Global, declarations: &[Declaration]) -> Result<Items<Step>, NoMemory>
    ensures { IfOk result (λ steps. steps ≡ spec.steps_of declarations.now) }
{
    let mut steps = Items::new(alloc);
    for declaration in declarations {
        push_declaration(alloc, declaration, &mut steps)?;
    }
    Ok(steps)
}

fn spots_of(alloc: Global, tops: &[Top]) -> Result<Items<Spot>, NoMemory>
    ensures { IfOk result (λ spots. spots ≡ map (λ top. top.spot) tops.now) }
{
    let mut spots = Items::new(alloc);
    for top in tops {
        spots.push(top.spot.copy(alloc)?)?;
    }
    Ok(spots)
}

fn push_of_face(
    alloc: Global,
    face: &Face,
    import: &Import,
    out: &mut Items<Flaw>,
) -> Result<(), NoMemory>
    ensures { OnOk result (out.new ≡ out.old ++ spec.of_face import.now.exposes face.now) }
{
    match &import.exposes {
        None => Ok(()),
        Some(exposes) => push_of_list(
            alloc,
            FaultKind::NotExposed,
            face.tops.as_slice(),
            face.types.as_slice(),
            exposes,
            out,
        ),
    }
}

fn push_of_import(
    alloc: Global,
    faces: &[Face],
    import: &Import,
    out: &mut Items<Flaw>,
) -> Result<(), NoMemory>
    ensures { OnOk result (out.new ≡ out.old ++ spec.of_import faces.now import.now) }
{
    for face in faces {
        if face.name.bytes() == import.module.bytes() {
            push_of_face(alloc, face, import, out)?;
        }
    }
    Ok(())
}

fn push_of_imports(
    alloc: Global,
    faces: &[Face],
    imports: &[Import],
    out: &mut Items<Flaw>,
) -> Result<(), NoMemory>
    ensures { OnOk result (out.new ≡ out.old ++ spec.of_imports faces.now imports.now) }
{
    for import in imports {
        push_of_import(alloc, faces, import, out)?;
    }
    Ok(())
}

/// The faults of the names that a module defines.
fn push_of_own(
    alloc: Global,
    own: &[Top],
    types: &[Spot],
    module: &Module,
    out: &mut Items<Flaw>,
) -> Result<(), NoMemory>
    ensures { OnOk result (out.new ≡ out.old ++ spec.of_own own.now types.now «module».now) }
{
    let spots = spots_of(alloc, own)?;
    push_repeated(alloc, spots.as_slice(), out)?;
    push_repeated(alloc, types, out)?;
    push_of_declarations(alloc, module.declarations.as_slice(), out)?;
    push_of_list(
        alloc,
        FaultKind::UnknownName,
        own,
        types,
        &module.exposes,
        out,
    )
}

fn uses_of(
    alloc: Global,
    faces: &[Face],
    module: &Module,
    own: &[Top],
    steps: &[Step],
) -> Result<Items<Use>, NoMemory>
    ensures { IfOk result (λ uses. uses ≡ uses_in (spec.places_over faces.now own.now «module».now) steps.now) }
{
    let defaults = defaults_for(alloc, module.name.bytes())?;
    let scope = Scope {
        faces,
        name: &module.name,
        own,
        defaults: defaults.as_slice(),
        imports: module.imports.as_slice(),
    };
    let mut walk = Walk::new(alloc);
    walk.walk(alloc, &scope, steps)?;
    Ok(walk.into_uses())
}

fn flaws_of(
    alloc: Global,
    faces: &[Face],
    module: &Module,
    own: &[Top],
    steps: &[Step],
    uses: &[Use],
) -> Result<Items<Flaw>, NoMemory>
    ensures { IfOk result (λ flaws. flaws ≡ spec.flaws_over faces.now own.now «module».now steps.now uses.now) }
{
    let types = types(alloc, module.declarations.as_slice())?;
    let mut flaws = Items::new(alloc);
    push_of_own(alloc, own, types.as_slice(), module, &mut flaws)?;
    push_of_imports(alloc, faces, module.imports.as_slice(), &mut flaws)?;
    push_of_steps(alloc, steps, &mut flaws)?;
    push_of_uses(alloc, uses, &mut flaws)?;
    Ok(flaws)
}

/// What is known of a module's names, where the modules of its project show these faces.
pub fn named_module(alloc: Global, faces: &[Face], module: &Module) -> Result<Named, NoMemory>
    ensures { IfOk result (λ named. named ≡ spec.named_of faces.now «module».now) }
{
    let own = tops(alloc, module)?;
    let steps = steps_of(alloc, module.declarations.as_slice())?;
    let uses = uses_of(alloc, faces, module, own.as_slice(), steps.as_slice())?;
    let flaws = flaws_of(
        alloc,
        faces,
        module,
        own.as_slice(),
        steps.as_slice(),
        uses.as_slice(),
    )?;
    Ok(Named { steps, uses, flaws })
}
