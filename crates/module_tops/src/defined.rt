//! What a module defines at its top level.
ghost use Rattle.std.specs.Prelude.{◌≡◌, ◌∷◌, [], ◌++◌, OnOk, IfOk, map};
ghost use Rattle.std.specs.List.{flat_map};
ghost use Rattle.module_tops.specs.Tops as spec;
ghost use Rattle.module_tops.specs.declared.top.Kind.TheVariants.{Constructor as Makes};

use crate::top::{Kind, Top};
use elm_base::{At, Constructor, Declaration, Module, Name, NoMemory, Spot, TypeTree};
use sqlite_items::Items;
use std::alloc::Global;

/// Whether the type is a closed record, brackets round it aside.
fn is_record(tree: &TypeTree) -> bool
    ensures { result ≡ spec.is_record tree.now }
{
    match tree {
        TypeTree::Brackets { inner, .. } => is_record(inner.get()),
        TypeTree::Fields { before, .. } => before.is_none(),
        _ => false,
    }
}

fn push_top(
    alloc: Global,
    at: At,
    name: &Name,
    kind: Kind,
    out: &mut Items<Top>,
) -> Result<(), NoMemory>
    ensures { OnOk result (out.new ≡ out.old ++ spec.top_of (spec.spot_of at name.now) kind ∷ []) }
{
    let name = name.copy(alloc)?;
    out.push(Top {
        spot: Spot { at, name },
        kind,
    })?;
    Ok(())
}

fn push_made(
    alloc: Global,
    at: At,
    name: &Name,
    of: &Name,
    out: &mut Items<Top>,
) -> Result<(), NoMemory>
    ensures { OnOk result (out.new ≡ out.old
        ++ spec.top_of (spec.spot_of at name.now) (Makes of.now) ∷ []) }
{
    let of = of.copy(alloc)?;
    push_top(alloc, at, name, Kind::Constructor { of }, out)
}

fn push_constructors(
    alloc: Global,
    of: &Name,
    constructors: &[Constructor],
    out: &mut Items<Top>,
) -> Result<(), NoMemory>
    ensures { OnOk result (out.new ≡ out.old
        ++ map (λ constructor. spec.top_of (spec.spot_of constructor.at constructor.name) (Makes of.now))
        constructors.now) }
{
    for constructor in constructors {
        push_made(alloc, constructor.at, &constructor.name, of, out)?;
    }
    Ok(())
}

/// Appends the maker of an alias, if it has one.
fn push_maker(
    alloc: Global,
    name: &Spot,
    written: &TypeTree,
    out: &mut Items<Top>,
) -> Result<(), NoMemory>
    ensures { OnOk result (out.new ≡ out.old ++ spec.maker_of name.now written.now) }
{
    if !is_record(written) {
        return Ok(());
    }
    push_top(alloc, name.at, &name.name, Kind::Maker, out)
}

/// Appends the names of values that one declaration defines.
fn push_of_one(
    alloc: Global,
    declaration: &Declaration,
    out: &mut Items<Top>,
) -> Result<(), NoMemory>
    ensures { OnOk result (out.new ≡ out.old ++ spec.tops_of_one declaration.now) }
{
    match declaration {
        Declaration::Union {
            name,
            constructors,
            ..
        } => push_constructors(alloc, &name.name, constructors.as_slice(), out),
        Declaration::Alias { name, written, .. } => push_maker(alloc, name, written, out),
        Declaration::Definition { at, name, .. } => push_top(alloc, *at, name, Kind::Value, out),
        Declaration::PortAnnotation { name, .. } => {
            push_top(alloc, name.at, &name.name, Kind::Value, out)
        }
        Declaration::PortDefinition { name, .. } => {
            push_top(alloc, name.at, &name.name, Kind::Value, out)
        }
        Declaration::Native { at, name, .. } => push_top(alloc, *at, name, Kind::Value, out),
        Declaration::Device { at, name, .. } => push_top(alloc, *at, name, Kind::Value, out),
        _ => Ok(()),
    }
}

/// Whether this is the annotation of an outbound port, whose definition stands behind it.
pub fn is_of_outbound(declaration: &Declaration, more: &[Declaration]) -> bool
    ensures { result ≡ spec.is_of_outbound declaration.now more.now }
{
    match declaration {
        Declaration::PortAnnotation { .. } => is_port_definition_first(more),
        _ => false,
    }
}

fn is_port_definition_first(more: &[Declaration]) -> bool
    ensures { result ≡ spec.port_follows more.now }
{
    match more {
        [] => false,
        [next, ..] => is_port_definition(next),
    }
}

fn is_port_definition(declaration: &Declaration) -> bool
    ensures { result ≡ spec.is_port_definition declaration.now }
{
    match declaration {
        Declaration::PortDefinition { .. } => true,
        _ => false,
    }
}

fn push_tops(
    alloc: Global,
    declarations: &[Declaration],
    out: &mut Items<Top>,
) -> Result<(), NoMemory>
    ensures { OnOk result (out.new ≡ out.old ++ spec.tops_of declarations.now) }
{
    let mut left = declarations;
    while let [declaration, more @ ..] = left {
        if !is_of_outbound(declaration, more) {
            push_of_one(alloc, declaration, out)?;
        }
        left = more;
    }
    Ok(())
}

/// The names of values that a module defines, in order: definitions, ports, constructors, the makers of aliases.
pub fn tops(alloc: Global, module: &Module) -> Result<Items<Top>, NoMemory>
    ensures { IfOk result (λ found. found ≡ spec.tops_of_module «module».now) }
{
    let mut found = Items::new(alloc);
    if module.name.is(b"List") {
        let at = At { line: 0, column: 0 };
        let of = Name::of(alloc, b"List")?;
        let name = Name::of(alloc, b"::")?;
        push_made(alloc, at, &name, &of, &mut found)?;
    }
    push_tops(alloc, module.declarations.as_slice(), &mut found)?;
    Ok(found)
}

fn push_type(
    alloc: Global,
    declaration: &Declaration,
    out: &mut Items<Spot>,
) -> Result<(), NoMemory>
    ensures { OnOk result (out.new ≡ out.old ++ spec.types_of_one declaration.now) }
{
    match declaration {
        Declaration::Union { name, .. } => push_spot(alloc, name.at, &name.name, out),
        Declaration::Alias { name, .. } => push_spot(alloc, name.at, &name.name, out),
        Declaration::Opaque { at, name, .. } => push_spot(alloc, *at, name, out),
        _ => Ok(()),
    }
}

fn push_spot(alloc: Global, at: At, name: &Name, out: &mut Items<Spot>) -> Result<(), NoMemory>
    ensures { OnOk result (out.new ≡ out.old ++ spec.spot_of at name.now ∷ []) }
{
    let name = name.copy(alloc)?;
    out.push(Spot { at, name })?;
    Ok(())
}

/// The names of types that these declarations define, in order.
pub fn types(alloc: Global, declarations: &[Declaration]) -> Result<Items<Spot>, NoMemory>
    ensures { IfOk result (λ found. found ≡ spec.types_of declarations.now) }
{
    let mut found = Items::new(alloc);
    for declaration in declarations {
        push_type(alloc, declaration, &mut found)?;
    }
    Ok(found)
}
