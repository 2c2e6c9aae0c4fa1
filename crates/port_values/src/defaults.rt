//! The value with which a port begins.
ghost use Rattle.std.specs.Prelude.{◌≡◌, IfOk, map};
ghost use Rattle.port_values.specs.Defaults as spec;

use elm_base::{Name, NoMemory, PortType, PortValue};
use sqlite_items::Items;
use std::alloc::Global;

/// What is least of a type: `()`, 0, False, the empty text, Nothing, the empty list, and of tuples and records what is
/// least of each part.
#[cycle(defaults)]
pub fn default_of(alloc: Global, port: &PortType) -> Result<PortValue, NoMemory>
    ensures { IfOk result (λ value. value ≡ spec.default port.now) }
{
    match port {
        PortType::Unit => Ok(PortValue::Unit),
        PortType::Int => Ok(PortValue::Int(0)),
        PortType::Bool => Ok(PortValue::Bool(false)),
        PortType::Text => Ok(PortValue::Text(Name::from_vec(Vec::new(alloc)))),
        PortType::Maybe(_) => Ok(PortValue::Nothing),
        PortType::List(_) => Ok(PortValue::List(Items::new(alloc))),
        PortType::Tuple(parts) => {
            let values = defaults_of(alloc, parts.as_slice())?;
            Ok(PortValue::Tuple(Items::from_vec(values)))
        }
        PortType::Fields(fields) => {
            let values = default_fields(alloc, fields.as_slice())?;
            Ok(PortValue::Fields(Items::from_vec(values)))
        }
    }
}

#[cycle(defaults)]
fn defaults_of(alloc: Global, parts: &[PortType]) -> Result<Vec<PortValue>, NoMemory>
    ensures { IfOk result (λ values. values.items ≡ map spec.default parts.now) }
{
    let mut values = Vec::new(alloc);
    for part in parts {
        values.push(default_of(alloc, part)?)?;
    }
    Ok(values)
}

#[cycle(defaults)]
fn default_fields(
    alloc: Global,
    fields: &[(Name, PortType)],
) -> Result<Vec<(Name, PortValue)>, NoMemory>
    ensures { IfOk result (λ values. values.items ≡ map spec.default_field fields.now) }
{
    let mut values = Vec::new(alloc);
    for (label, port) in fields {
        let value = default_of(alloc, port)?;
        values.push((label.copy(alloc)?, value))?;
    }
    Ok(values)
}
