//! How large the type of a port may be.
ghost use Rattle.std.specs.Prelude.{◌≡◌, IfOk};
ghost use Rattle.port_types.specs.Limits as spec;

use elm_base::{Name, NoMemory, PortType};
use frame_text::write_type;
use std::alloc::Global;

/// So many levels has a type that nests 32 deep.
const MAX_LEVELS: usize = 33;

const MAX_TEXT: usize = 4096;

/// Whether the type has at most so many levels.
#[cycle(levels)]
fn fits(port: &PortType, levels: usize) -> bool
    ensures { result ≡ spec.fits port.now levels }
{
    if levels == 0 {
        return false;
    }
    match port {
        PortType::Unit | PortType::Int | PortType::Bool | PortType::Text => true,
        PortType::Maybe(inner) => fits(inner.get(), levels - 1),
        PortType::List(inner) => fits(inner.get(), levels - 1),
        PortType::Tuple(parts) => all_fit(parts.as_slice(), levels - 1),
        PortType::Fields(fields) => fields_fit(fields.as_slice(), levels - 1),
    }
}

#[cycle(levels)]
fn all_fit(parts: &[PortType], levels: usize) -> bool
    ensures { result ≡ spec.all_fit levels parts.now }
{
    let mut whole = true;
    for part in parts {
        let one = fits(part, levels);
        whole = whole && one;
    }
    whole
}

#[cycle(levels)]
fn fields_fit(fields: &[(Name, PortType)], levels: usize) -> bool
    ensures { result ≡ spec.fields_fit levels fields.now }
{
    let mut whole = true;
    for (_, port) in fields {
        let one = fits(port, levels);
        whole = whole && one;
    }
    whole
}

fn text_len(alloc: Global, port: &PortType) -> Result<usize, NoMemory>
    ensures { IfOk result (λ len. len ≡ spec.text_len port.now) }
{
    let mut text = Vec::new(alloc);
    write_type(alloc, port, &mut text)?;
    Ok(text.len())
}

/// Whether the type is within the limits.
pub fn is_within(alloc: Global, port: &PortType) -> Result<bool, NoMemory>
    ensures { IfOk result (λ within. within ≡ spec.is_within port.now) }
{
    let len = text_len(alloc, port)?;
    Ok(fits(port, MAX_LEVELS) && len <= MAX_TEXT)
}
