//! Copies of types.
ghost use Rattle.std.specs.Prelude.{◌≡◌, IfOk};

use elm_base::{Name, NoMemory, PortType};
use sqlite_items::{Boxed, Items};
use std::alloc::Global;

/// An equal type of its own.
#[cycle(copies)]
pub fn copy_type(alloc: Global, port: &PortType) -> Result<PortType, NoMemory>
    ensures { IfOk result (λ copied. copied ≡ port.now) }
{
    match port {
        PortType::Unit => Ok(PortType::Unit),
        PortType::Int => Ok(PortType::Int),
        PortType::Bool => Ok(PortType::Bool),
        PortType::Text => Ok(PortType::Text),
        PortType::Maybe(inner) => Ok(PortType::Maybe(copy_in_box(alloc, inner)?)),
        PortType::List(inner) => Ok(PortType::List(copy_in_box(alloc, inner)?)),
        PortType::Tuple(parts) => Ok(PortType::Tuple(copies_of(alloc, parts.as_slice())?)),
        PortType::Fields(fields) => {
            Ok(PortType::Fields(copies_of_fields(alloc, fields.as_slice())?))
        }
    }
}

#[cycle(copies)]
fn copy_in_box(alloc: Global, port: &Boxed<PortType>) -> Result<Boxed<PortType>, NoMemory>
    ensures { IfOk result (λ copied. copied ≡ port.now) }
{
    let copied = copy_type(alloc, port.get())?;
    Ok(Boxed::new(alloc, copied)?)
}

#[cycle(copies)]
fn copies_of(alloc: Global, parts: &[PortType]) -> Result<Items<PortType>, NoMemory>
    ensures { IfOk result (λ copied. copied ≡ parts.now) }
{
    let mut copied = Items::new(alloc);
    for part in parts {
        copied.push(copy_type(alloc, part)?)?;
    }
    Ok(copied)
}

#[cycle(copies)]
fn copies_of_fields(
    alloc: Global,
    fields: &[(Name, PortType)],
) -> Result<Items<(Name, PortType)>, NoMemory>
    ensures { IfOk result (λ copied. copied ≡ fields.now) }
{
    let mut copied = Items::new(alloc);
    for (label, port) in fields {
        let label = label.copy(alloc)?;
        copied.push((label, copy_type(alloc, port)?))?;
    }
    Ok(copied)
}
