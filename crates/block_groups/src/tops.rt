//! What is defined at a module's top level.
ghost use Rattle.std.specs.Prelude.{◌≡◌, ◌∷◌, [], ◌++◌, OnOk, IfOk, false};
ghost use Rattle.elm_base.specs.declared.tree.Declaration.{out-Declaration};
ghost use Rattle.name_steps.specs.PatternNames.{spot_of};
ghost use Rattle.name_steps.specs.Steps.{defined_of};
ghost use Rattle.block_groups.specs.Blocks as spec;

use elm_base::{At, Declaration, Name, NoMemory, Spot};
use module_tops::is_of_outbound;
use name_steps::{Defined, push_defined};
use sqlite_items::Items;
use std::alloc::Global;

/// Appends a definition without an expression. Its name stands at `place`.
fn push_given(
    alloc: Global,
    at: At,
    place: At,
    name: &Name,
    out: &mut Items<Defined>,
) -> Result<(), NoMemory>
    ensures { OnOk result (out.new ≡ out.old
        ++ defined_of at name.now (spot_of place name.now ∷ []) false ∷ []) }
{
    let mut binds = Items::new(alloc);
    let bound = name.copy(alloc)?;
    binds.push(Spot {
        at: place,
        name: bound,
    })?;
    let name = name.copy(alloc)?;
    out.push(Defined {
        at,
        name,
        binds,
        function: false,
    })?;
    Ok(())
}

/// Appends a port that comes in, or a device. Other declarations give nothing.
fn push_incoming(
    alloc: Global,
    declaration: &Declaration,
    out: &mut Items<Defined>,
) -> Result<(), NoMemory>
    ensures { OnOk result (out.new ≡ out.old
        ++ spec.incoming_layer (out-Declaration declaration.now)) }
{
    match declaration {
        Declaration::PortAnnotation { at, name, .. } => {
            push_given(alloc, *at, name.at, &name.name, out)
        }
        Declaration::Device { at, name, .. } => push_given(alloc, *at, *at, name, out),
        _ => Ok(()),
    }
}

fn push_top(
    alloc: Global,
    declaration: &Declaration,
    out: &mut Items<Defined>,
) -> Result<(), NoMemory>
    ensures { OnOk result (out.new ≡ out.old ++ spec.top_of declaration.now) }
{
    push_defined(alloc, declaration, out)?;
    push_incoming(alloc, declaration, out)
}

fn push_tops(
    alloc: Global,
    declarations: &[Declaration],
    out: &mut Items<Defined>,
) -> Result<(), NoMemory>
    ensures { OnOk result (out.new ≡ out.old ++ spec.tops_of declarations.now) }
{
    let mut left = declarations;
    while let [declaration, more @ ..] = left {
        if !is_of_outbound(declaration, more) {
            push_top(alloc, declaration, out)?;
        }
        left = more;
    }
    Ok(())
}

/// The definitions of a top level, in order.
pub fn top_definitions(
    alloc: Global,
    declarations: &[Declaration],
) -> Result<Items<Defined>, NoMemory>
    ensures { IfOk result (λ found. found ≡ spec.tops_of declarations.now) }
{
    let mut found = Items::new(alloc);
    push_tops(alloc, declarations, &mut found)?;
    Ok(found)
}
