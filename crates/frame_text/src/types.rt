//! The texts of port types.
ghost use Rattle.std.specs.Prelude.{◌≡◌, ◌++◌, OnOk, OnErr, map};
ghost use Rattle.frame_text.specs.TypeText as spec;

use crate::lines::push_text;
use elm_base::{Name, NoMemory, PortType};
use std::alloc::Global;

/// Appends the text of a type: `Maybe (List Int)`, `(Int,Bool)`, `{ x : Int, y : Int }`.
pub fn write_type(alloc: Global, port: &PortType, out: &mut Vec<u8>) -> Result<(), NoMemory>
    ensures written { OnOk result (out.new.items ≡ out.old.items ++ spec.type_text port.now) }
    ensures kept { OnErr result (out.new.items ≡ out.old.items) }
{
    let mut text = Vec::new(alloc);
    push_type(port, &mut text)?;
    out.extend_from_slice(&text)?;
    Ok(())
}

#[cycle(types)]
pub fn push_type(port: &PortType, out: &mut Vec<u8>) -> Result<(), NoMemory>
    ensures { OnOk result (out.new.items ≡ out.old.items ++ spec.type_text port.now) }
{
    match port {
        PortType::Unit => push_text(b"()", out),
        PortType::Int => push_text(b"Int", out),
        PortType::Bool => push_text(b"Bool", out),
        PortType::Text => push_text(b"String", out),
        PortType::Maybe(inner) => {
            push_text(b"Maybe ", out)?;
            push_argument(inner.get(), out)
        }
        PortType::List(inner) => {
            push_text(b"List ", out)?;
            push_argument(inner.get(), out)
        }
        PortType::Tuple(parts) => {
            push_text(b"(", out)?;
            push_parts(parts.as_slice(), out)?;
            push_text(b")", out)
        }
        PortType::Fields(fields) => push_fields(fields.as_slice(), out),
    }
}

fn takes_brackets(port: &PortType) -> bool
    ensures { result ≡ (spec.described port.now).takes_brackets }
{
    match port {
        PortType::Maybe(_) | PortType::List(_) => true,
        _ => false,
    }
}

/// Appends a type behind `Maybe` or `List`.
#[cycle(types)]
fn push_argument(port: &PortType, out: &mut Vec<u8>) -> Result<(), NoMemory>
    ensures { OnOk result (out.new.items ≡ out.old.items ++ spec.argument (spec.described port.now)) }
{
    if takes_brackets(port) {
        push_text(b"(", out)?;
        push_type(port, out)?;
        push_text(b")", out)
    } else {
        push_type(port, out)
    }
}

/// Appends types with commas between them.
#[cycle(types)]
fn push_parts(parts: &[PortType], out: &mut Vec<u8>) -> Result<(), NoMemory>
    ensures { OnOk result (out.new.items ≡ out.old.items
        ++ spec.parts (map spec.described parts.now)) }
{
    let [first, others @ ..] = parts else {
        return Ok(());
    };
    push_type(first, out)?;
    for part in others {
        push_text(b",", out)?;
        push_type(part, out)?;
    }
    Ok(())
}

/// Appends the type of a record.
#[cycle(types)]
fn push_fields(fields: &[(Name, PortType)], out: &mut Vec<u8>) -> Result<(), NoMemory>
    ensures { OnOk result (out.new.items ≡ out.old.items
        ++ spec.fields (map spec.described_field fields.now)) }
{
    let [(label, port), others @ ..] = fields else {
        return push_text(b"{}", out);
    };
    push_text(b"{ ", out)?;
    push_field(label, port, out)?;
    for (label, port) in others {
        push_text(b", ", out)?;
        push_field(label, port, out)?;
    }
    push_text(b" }", out)
}

#[cycle(types)]
fn push_field(label: &Name, port: &PortType, out: &mut Vec<u8>) -> Result<(), NoMemory>
    ensures { OnOk result (out.new.items ≡ out.old.items
        ++ spec.field (label.now, spec.described port.now)) }
{
    push_text(label.bytes(), out)?;
    push_text(b" : ", out)?;
    push_type(port, out)
}
