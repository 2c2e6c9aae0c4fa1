//! The declarations of a module that write a type which makes no sense.
ghost use Rattle.std.specs.Prelude.{◌≡◌, ◌++◌, OnOk};
ghost use Rattle.elm_base.specs.declared.tree.Declaration.{out-Declaration};
ghost use Rattle.elm_base.specs.declared.fault.FaultKind.TheVariants as kind;
ghost use Rattle.type_names.specs.Answers.{places_of};
ghost use Rattle.let_annotations.specs.Annotations.{inside};
ghost use Rattle.decl_faults.specs.Sense as spec;
ghost use Rattle.decl_faults.specs.Sense.{by_table};
ghost use Rattle.decl_faults.specs.Deciding.{sensible};

use crate::sense::{alias_stands, stands};
use crate::unions::{UnionHead, constructors_stand};
use alias_expansion::{PlainAlias, Room};
use elm_base::{At, Declaration, FaultKind, Name, NoMemory, TypeTree};
use let_annotations::{LetAnnotation, push_annotations};
use module_names::Flaw;
use sqlite_items::Items;
use std::alloc::Global;
use type_names::TypeScope;

/// Appends a fault where something doesn't hold.
pub fn push_unless(
    alloc: Global,
    holds: bool,
    kind: FaultKind,
    at: At,
    name: &Name,
    out: &mut Items<Flaw>,
) -> Result<(), NoMemory>
    ensures { OnOk result (out.new ≡ out.old ++ spec.flaw_unless holds kind at name.now) }
{
    if holds {
        return Ok(());
    }
    let name = name.copy(alloc)?;
    out.push(Flaw { at, kind, name })?;
    Ok(())
}

/// Appends a fault where the type that a declaration writes makes no sense.
fn push_senseless_type(
    alloc: Global,
    written: &TypeTree,
    at: At,
    name: &Name,
    aliases: &[PlainAlias],
    scope: &TypeScope<'_>,
    room: &mut Room,
    out: &mut Items<Flaw>,
) -> Result<(), NoMemory>
    ensures { OnOk result (out.new ≡ out.old ++ spec.flaw_unless
        (spec.stands sensible (by_table aliases.now) (places_of scope.now) written.now)
        kind.BadType at name.now) }
{
    let holds = stands(alloc, written, aliases, scope, room)?;
    push_unless(alloc, holds, FaultKind::BadType, at, name, out)
}

fn push_senseless_own(
    alloc: Global,
    declaration: &Declaration,
    aliases: &[PlainAlias],
    scope: &TypeScope<'_>,
    room: &mut Room,
    out: &mut Items<Flaw>,
) -> Result<(), NoMemory>
    ensures { OnOk result (out.new ≡ out.old ++ spec.senseless_layer
        sensible (by_table aliases.now) (places_of scope.now) (out-Declaration declaration.now)) }
{
    match declaration {
        Declaration::Union {
            at,
            name,
            parameters,
            constructors,
        } => {
            let head = UnionHead {
                name,
                parameters: parameters.as_slice(),
            };
            let all = constructors.as_slice();
            let holds = constructors_stand(alloc, all, &head, aliases, scope, room)?;
            push_unless(alloc, holds, FaultKind::BadType, *at, &name.name, out)
        }
        Declaration::Alias {
            at,
            name,
            written,
            ..
        } => {
            let holds = alias_stands(alloc, written, aliases, scope, room)?;
            push_unless(alloc, holds, FaultKind::BadType, *at, &name.name, out)
        }
        Declaration::Annotation { at, name, written } => {
            push_senseless_type(alloc, written, *at, name, aliases, scope, room, out)
        }
        Declaration::PortAnnotation { at, name, written } => {
            push_senseless_type(alloc, written, *at, &name.name, aliases, scope, room, out)
        }
        Declaration::Native {
            at,
            name,
            written,
            ..
        } => push_senseless_type(alloc, written, *at, name, aliases, scope, room, out),
        Declaration::Device { at, name, written } => {
            push_senseless_type(alloc, written, *at, name, aliases, scope, room, out)
        }
        _ => Ok(()),
    }
}

fn push_senseless_lets(
    alloc: Global,
    annotations: &[LetAnnotation],
    aliases: &[PlainAlias],
    scope: &TypeScope<'_>,
    room: &mut Room,
    out: &mut Items<Flaw>,
) -> Result<(), NoMemory>
    ensures { OnOk result (out.new ≡ out.old ++ spec.senseless_lets
        sensible (by_table aliases.now) (places_of scope.now) annotations.now) }
{
    for annotation in annotations {
        let written = &annotation.written;
        let at = annotation.at;
        push_senseless_type(
            alloc,
            written,
            at,
            &annotation.name,
            aliases,
            scope,
            room,
            out,
        )?;
    }
    Ok(())
}

/// Appends the faults of a declaration, and of the annotations of each `let` in it.
fn push_senseless(
    alloc: Global,
    declaration: &Declaration,
    aliases: &[PlainAlias],
    scope: &TypeScope<'_>,
    room: &mut Room,
    out: &mut Items<Flaw>,
) -> Result<(), NoMemory>
    ensures { OnOk result (out.new ≡ out.old
        ++ spec.senseless sensible (by_table aliases.now) (places_of scope.now) declaration.now) }
{
    push_senseless_own(alloc, declaration, aliases, scope, room, out)?;
    let mut annotations = Items::new(alloc);
    push_annotations(alloc, declaration, &mut annotations)?;
    push_senseless_lets(alloc, annotations.as_slice(), aliases, scope, room, out)
}

/// Appends those of a module's declarations.
pub fn push_senseless_in(
    alloc: Global,
    declarations: &[Declaration],
    aliases: &[PlainAlias],
    scope: &TypeScope<'_>,
    room: &mut Room,
    out: &mut Items<Flaw>,
) -> Result<(), NoMemory>
    ensures { OnOk result (out.new ≡ out.old
        ++ spec.senseless_in sensible (by_table aliases.now) (places_of scope.now)
        declarations.now) }
{
    for declaration in declarations {
        push_senseless(alloc, declaration, aliases, scope, room, out)?;
    }
    Ok(())
}
