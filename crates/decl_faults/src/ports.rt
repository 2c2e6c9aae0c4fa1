//! Ports that can't be.
ghost use Rattle.std.specs.Prelude.{◌≡◌, ◌++◌, OnOk, IfOk, is_some, drop};
ghost use Rattle.elm_base.specs.declared.tree.Declaration.{out-Declaration};
ghost use Rattle.elm_base.specs.declared.fault.FaultKind.TheVariants as kind;
ghost use Rattle.module_names.specs.Flaws.{flaw_of};
ghost use Rattle.type_names.specs.Answers.{places_of};
ghost use Rattle.decl_faults.specs.Sense.{by_table};
ghost use Rattle.decl_faults.specs.Ports as spec;

use crate::judging::push_unless;
use alias_expansion::{PlainAlias, Room, knows, plain};
use elm_base::{Declaration, FaultKind, NoMemory, PortType, TypeTree};
use module_names::Flaw;
use module_tops::is_of_outbound;
use port_types::carried;
use sqlite_items::Items;
use std::alloc::Global;
use type_names::TypeScope;

/// So many ports may come in.
const MAX_INBOUND: usize = 256;

fn carried_of(alloc: Global, found: &Option<TypeTree>) -> Result<Option<PortType>, NoMemory>
    ensures { IfOk result (λ port. port ≡ spec.carried_of found.now) }
{
    match found {
        None => Ok(None),
        Some(tree) => carried(alloc, tree),
    }
}

fn carried_as(
    alloc: Global,
    written: &TypeTree,
    aliases: &[PlainAlias],
    scope: &TypeScope<'_>,
    room: &mut Room,
) -> Result<Option<PortType>, NoMemory>
    ensures { IfOk result (λ port. port
        ≡ spec.carried_as (by_table aliases.now) (places_of scope.now) written.now) }
{
    if !knows(alloc, written, aliases, scope)? {
        return Ok(None);
    }
    let found = plain(alloc, written, aliases, scope, room)?;
    carried_of(alloc, &found)
}

/// What a port of this written type carries in a module: the type of a port under one `Signal`, within the limits. A port
/// outside Main carries nothing.
pub fn carried_by(
    alloc: Global,
    written: &TypeTree,
    aliases: &[PlainAlias],
    scope: &TypeScope<'_>,
    room: &mut Room,
) -> Result<Option<PortType>, NoMemory>
    ensures { IfOk result (λ port. port
        ≡ spec.carried_by (by_table aliases.now) (places_of scope.now) written.now) }
{
    if scope.name.bytes() == b"Main".as_slice() {
        return carried_as(alloc, written, aliases, scope, room);
    }
    Ok(None)
}

/// Whether there is a type.
fn is_there(found: &Option<PortType>) -> bool
    ensures { result ≡ is_some found.now }
{
    match found {
        None => false,
        Some(_) => true,
    }
}

/// Whether a port of this written type carries something.
fn carries(
    alloc: Global,
    written: &TypeTree,
    aliases: &[PlainAlias],
    scope: &TypeScope<'_>,
    room: &mut Room,
) -> Result<bool, NoMemory>
    ensures { IfOk result (λ carries. carries
        ≡ is_some (spec.carried_by (by_table aliases.now) (places_of scope.now) written.now)) }
{
    let found = carried_by(alloc, written, aliases, scope, room)?;
    Ok(is_there(&found))
}

fn push_portless(
    alloc: Global,
    declaration: &Declaration,
    aliases: &[PlainAlias],
    scope: &TypeScope<'_>,
    room: &mut Room,
    out: &mut Items<Flaw>,
) -> Result<(), NoMemory>
    ensures { OnOk result (out.new ≡ out.old
        ++ spec.portless (by_table aliases.now) (places_of scope.now) declaration.now) }
{
    match declaration {
        Declaration::PortAnnotation { at, name, written } => {
            let holds = carries(alloc, written, aliases, scope, room)?;
            push_unless(alloc, holds, FaultKind::BadPort, *at, &name.name, out)
        }
        _ => Ok(()),
    }
}

/// Appends the faults of ports that carry nothing.
pub fn push_portless_in(
    alloc: Global,
    declarations: &[Declaration],
    aliases: &[PlainAlias],
    scope: &TypeScope<'_>,
    room: &mut Room,
    out: &mut Items<Flaw>,
) -> Result<(), NoMemory>
    ensures { OnOk result (out.new ≡ out.old
        ++ spec.portless_in (by_table aliases.now) (places_of scope.now) declarations.now) }
{
    for declaration in declarations {
        push_portless(alloc, declaration, aliases, scope, room, out)?;
    }
    Ok(())
}

/// Appends the fault that a port has where it is one too many.
fn push_port(
    alloc: Global,
    declaration: &Declaration,
    out: &mut Items<Flaw>,
) -> Result<(), NoMemory>
    ensures { OnOk result
        (out.new ≡ out.old ++ spec.surplus_layer (out-Declaration declaration.now)) }
{
    match declaration {
        Declaration::PortAnnotation { at, name, .. } => {
            push_unless(alloc, false, FaultKind::BadPort, *at, &name.name, out)
        }
        _ => Ok(()),
    }
}

/// The same of each port that comes in.
fn inbound(alloc: Global, declarations: &[Declaration]) -> Result<Items<Flaw>, NoMemory>
    ensures { IfOk result (λ ports. ports ≡ spec.inbound declarations.now) }
{
    let mut ports = Items::new(alloc);
    let mut left = declarations;
    while let [declaration, more @ ..] = left {
        if !is_of_outbound(declaration, more) {
            push_port(alloc, declaration, &mut ports)?;
        }
        left = more;
    }
    Ok(ports)
}

fn push_copies(alloc: Global, flaws: &[Flaw], out: &mut Items<Flaw>) -> Result<(), NoMemory>
    ensures { OnOk result (out.new ≡ out.old ++ flaws.now) }
{
    for flaw in flaws {
        push_unless(alloc, false, flaw.kind, flaw.at, &flaw.name, out)?;
    }
    Ok(())
}

/// Appends the faults of the ports that come in beyond as many as may.
pub fn push_surplus(
    alloc: Global,
    declarations: &[Declaration],
    out: &mut Items<Flaw>,
) -> Result<(), NoMemory>
    ensures { OnOk result (out.new ≡ out.old ++ spec.surplus declarations.now) }
{
    let ports = inbound(alloc, declarations)?;
    if ports.len() <= MAX_INBOUND {
        return Ok(());
    }
    push_copies(alloc, &ports.as_slice()[MAX_INBOUND..], out)
}
