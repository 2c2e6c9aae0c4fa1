//! The texts of values.
ghost use Rattle.std.specs.Prelude.{◌≡◌, ◌++◌, OnOk, OnErr, map};
ghost use Rattle.std.specs.List.{flat_map};
ghost use Rattle.elm_base.specs.Quoted.{escaped, quoted};
ghost use Rattle.std.specs.Fmt.{signed_decimal};
ghost use Rattle.port_values.specs.ValueText as spec;

use elm_base::{Name, NoMemory, PortValue};
use itoa::Buffer;
use std::alloc::Global;

/// Appends the text of a value: `Just (Just 5)`, `[1,2]`, `(0,"a\n")`, `{ x = 0, y = -3 }`.
pub fn print_value(alloc: Global, value: &PortValue, out: &mut Vec<u8>) -> Result<(), NoMemory>
    ensures written { OnOk result (out.new.items ≡ out.old.items ++ spec.value_text value.now) }
    ensures kept { OnErr result (out.new.items ≡ out.old.items) }
{
    let mut text = Vec::new(alloc);
    push_value(value, &mut text)?;
    out.extend_from_slice(&text)?;
    Ok(())
}

#[cycle(values)]
fn push_value(value: &PortValue, out: &mut Vec<u8>) -> Result<(), NoMemory>
    ensures { OnOk result (out.new.items ≡ out.old.items ++ spec.value_text value.now) }
{
    match value {
        PortValue::Unit => push_text(b"()", out),
        PortValue::Int(number) => push_int(*number, out),
        PortValue::Bool(truth) => push_truth(*truth, out),
        PortValue::Text(text) => push_quoted(text.bytes(), out),
        PortValue::Nothing => push_text(b"Nothing", out),
        PortValue::Just(inner) => {
            push_text(b"Just ", out)?;
            push_argument(inner.get(), out)
        }
        PortValue::List(parts) => {
            push_text(b"[", out)?;
            push_values(parts.as_slice(), out)?;
            push_text(b"]", out)
        }
        PortValue::Tuple(parts) => {
            push_text(b"(", out)?;
            push_values(parts.as_slice(), out)?;
            push_text(b")", out)
        }
        PortValue::Fields(fields) => push_fields(fields.as_slice(), out),
    }
}

fn takes_brackets(value: &PortValue) -> bool
    ensures { result ≡ (spec.printed value.now).takes_brackets }
{
    match value {
        PortValue::Just(_) => true,
        _ => false,
    }
}

/// Appends a value behind `Just`.
#[cycle(values)]
fn push_argument(value: &PortValue, out: &mut Vec<u8>) -> Result<(), NoMemory>
    ensures { OnOk result (out.new.items ≡ out.old.items ++ spec.argument (spec.printed value.now)) }
{
    if takes_brackets(value) {
        push_text(b"(", out)?;
        push_value(value, out)?;
        push_text(b")", out)
    } else {
        push_value(value, out)
    }
}

/// Appends values with commas between them.
#[cycle(values)]
fn push_values(parts: &[PortValue], out: &mut Vec<u8>) -> Result<(), NoMemory>
    ensures { OnOk result (out.new.items ≡ out.old.items
        ++ spec.values (map spec.printed parts.now)) }
{
    let [first, others @ ..] = parts else {
        return Ok(());
    };
    push_value(first, out)?;
    for part in others {
        push_text(b",", out)?;
        push_value(part, out)?;
    }
    Ok(())
}

/// Appends a record.
#[cycle(values)]
fn push_fields(fields: &[(Name, PortValue)], out: &mut Vec<u8>) -> Result<(), NoMemory>
    ensures { OnOk result (out.new.items ≡ out.old.items
        ++ spec.fields (map spec.printed_field fields.now)) }
{
    let [(label, value), others @ ..] = fields else {
        return push_text(b"{}", out);
    };
    push_text(b"{ ", out)?;
    push_field(label, value, out)?;
    for (label, value) in others {
        push_text(b", ", out)?;
        push_field(label, value, out)?;
    }
    push_text(b" }", out)
}

#[cycle(values)]
fn push_field(label: &Name, value: &PortValue, out: &mut Vec<u8>) -> Result<(), NoMemory>
    ensures { OnOk result (out.new.items ≡ out.old.items
        ++ spec.field (label.now, spec.printed value.now)) }
{
    push_text(label.bytes(), out)?;
    push_text(b" = ", out)?;
    push_value(value, out)
}

fn push_text(text: &[u8], out: &mut Vec<u8>) -> Result<(), NoMemory>
    ensures { OnOk result (out.new.items ≡ out.old.items ++ text.now) }
{
    out.extend_from_slice(text)?;
    Ok(())
}

fn push_truth(truth: bool, out: &mut Vec<u8>) -> Result<(), NoMemory>
    ensures { OnOk result (out.new.items ≡ out.old.items ++ spec.truth_text truth) }
{
    push_text(if truth { b"True" } else { b"False" }, out)
}

fn push_int(number: i64, out: &mut Vec<u8>) -> Result<(), NoMemory>
    ensures { OnOk result (out.new.items ≡ out.old.items ++ signed_decimal number) }
{
    let mut buffer = Buffer::new();
    push_text(buffer.format(number).as_bytes(), out)
}

/// Appends a text between quotes, escaped.
fn push_quoted(text: &[u8], out: &mut Vec<u8>) -> Result<(), NoMemory>
    ensures { OnOk result (out.new.items ≡ out.old.items ++ quoted 34 text.now) }
{
    out.push(b'"')?;
    push_escaped_text(text, out)?;
    out.push(b'"')?;
    Ok(())
}

fn push_escaped_text(text: &[u8], out: &mut Vec<u8>) -> Result<(), NoMemory>
    ensures { OnOk result (out.new.items ≡ out.old.items ++ flat_map (escaped 34) text.now) }
{
    for byte in text {
        push_escaped(*byte, out)?;
    }
    Ok(())
}

fn push_escaped(byte: u8, out: &mut Vec<u8>) -> Result<(), NoMemory>
    ensures { OnOk result (out.new.items ≡ out.old.items ++ escaped 34 byte) }
{
    match byte {
        b'"' => out.extend_from_slice(b"\\\"")?,
        b'\\' => out.extend_from_slice(b"\\\\")?,
        b'\n' => out.extend_from_slice(b"\\n")?,
        b'\t' => out.extend_from_slice(b"\\t")?,
        b'\r' => out.extend_from_slice(b"\\r")?,
        _ => out.push(byte)?,
    }
    Ok(())
}
