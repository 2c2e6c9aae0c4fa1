//! The inputs of a project: devices and inbound ports.
ghost use Rattle.std.specs.Prelude.{◌≡◌, ◌++◌, ◌+◌, OnOk, IfOk};
ghost use Rattle.core_definitions.specs.Inputs as spec;

use core_names::same_place;
use elm_base::{At, Declaration, Module, Name, NoMemory};
use module_tops::is_of_outbound;
use sqlite_items::Items;
use std::alloc::Global;

/// The name of a module, and a place in it.
pub type Place = (Name, At);

fn push_input(
    alloc: Global,
    home: &Name,
    declaration: &Declaration,
    out: &mut Items<Place>,
) -> Result<(), NoMemory>
    ensures { OnOk result (out.new ≡ out.old ++ spec.input_of home.now declaration.now) }
{
    match declaration {
        Declaration::Device { at, .. } => out.push((home.copy(alloc)?, *at))?,
        Declaration::PortAnnotation { at, .. } => out.push((home.copy(alloc)?, *at))?,
        _ => {}
    }
    Ok(())
}

fn push_inputs_of(
    alloc: Global,
    home: &Name,
    declarations: &[Declaration],
    out: &mut Items<Place>,
) -> Result<(), NoMemory>
    ensures { OnOk result (out.new ≡ out.old ++ spec.inputs_from home.now declarations.now) }
{
    let mut left = declarations;
    while let [declaration, more @ ..] = left {
        if !is_of_outbound(declaration, more) {
            push_input(alloc, home, declaration, out)?;
        }
        left = more;
    }
    Ok(())
}

/// The places of the devices and inbound ports of these modules, in the order of the modules and then of lines.
pub fn inputs_in(alloc: Global, modules: &[Module]) -> Result<Items<Place>, NoMemory>
    ensures { IfOk result (λ inputs. inputs ≡ spec.inputs_in modules.now) }
{
    let mut inputs = Items::new(alloc);
    for home in modules {
        let declarations = home.declarations.as_slice();
        push_inputs_of(alloc, &home.name, declarations, &mut inputs)?;
    }
    Ok(inputs)
}

/// How many inputs stand before the one at this place. A number that doesn't fit is want of memory.
pub fn input_at(home: &[u8], at: At, inputs: &[Place]) -> Result<u32, NoMemory>
    ensures { IfOk result (λ number. number ≡ spec.input_at home.now at inputs.now) }
{
    let mut number: u32 = 0;
    let mut left = inputs;
    while let [(module, place), more @ ..] = left {
        if module.bytes() == home && same_place(*place, at) {
            break;
        }
        number = number.checked_add(1).ok_or(NoMemory)?;
        left = more;
    }
    Ok(number)
}
