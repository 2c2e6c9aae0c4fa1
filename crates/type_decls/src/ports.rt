//! The ports of a module.
ghost use Rattle.std.specs.Prelude.{◌≡◌, ◌++◌, OnOk};
ghost use Rattle.elm_base.specs.declared.tree.Declaration.{out-Declaration};
ghost use Rattle.type_names.specs.Answers.{places_of};
ghost use Rattle.decl_faults.specs.Sense.{by_table};
ghost use Rattle.type_decls.specs.Ports as spec;

use alias_expansion::{PlainAlias, Room};
use decl_faults::carried_by;
use elm_base::{Declaration, Name, NoMemory, PortOf, PortType};
use module_tops::is_of_outbound;
use sqlite_items::Items;
use std::alloc::Global;
use type_names::TypeScope;

/// Appends a port that carries this, if it carries something.
fn push_port_of(
    alloc: Global,
    name: &Name,
    line: u32,
    inbound: bool,
    found: Option<PortType>,
    out: &mut Items<PortOf>,
) -> Result<(), NoMemory>
    ensures { OnOk result (out.new ≡ out.old ++ spec.port_of name.now line inbound found) }
{
    match found {
        None => Ok(()),
        Some(port) => {
            let name = name.copy(alloc)?;
            out.push(PortOf {
                name,
                line,
                inbound,
                port,
            })?;
            Ok(())
        }
    }
}

fn push_port(
    alloc: Global,
    declaration: &Declaration,
    inbound: bool,
    aliases: &[PlainAlias],
    scope: &TypeScope<'_>,
    room: &mut Room,
    out: &mut Items<PortOf>,
) -> Result<(), NoMemory>
    ensures { OnOk result (out.new ≡ out.old ++ spec.port_layer (by_table aliases.now)
        (places_of scope.now) inbound (out-Declaration declaration.now)) }
{
    match declaration {
        Declaration::PortAnnotation { at, name, written } => {
            let found = carried_by(alloc, written, aliases, scope, room)?;
            push_port_of(alloc, &name.name, at.line, inbound, found, out)
        }
        _ => Ok(()),
    }
}

/// Appends the ports that these declarations of a module are. One whose definition follows goes out, the others come in.
pub fn push_ports(
    alloc: Global,
    declarations: &[Declaration],
    aliases: &[PlainAlias],
    scope: &TypeScope<'_>,
    room: &mut Room,
    out: &mut Items<PortOf>,
) -> Result<(), NoMemory>
    ensures { OnOk result (out.new ≡ out.old
        ++ spec.ports_in (by_table aliases.now) (places_of scope.now) declarations.now) }
{
    let mut left = declarations;
    while let [declaration, more @ ..] = left {
        let inbound = !is_of_outbound(declaration, more);
        push_port(alloc, declaration, inbound, aliases, scope, room, out)?;
        left = more;
    }
    Ok(())
}
