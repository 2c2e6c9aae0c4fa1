//! Literals of texts and chars, and of numbers. Each call appends to `out`, and after want of memory `out` holds a part.
ghost use Rattle.std.specs.Prelude.{◌≡◌, ◌++◌, encode_utf8, OnOk};
ghost use Rattle.std.specs.List.{flat_map};
ghost use Rattle.std.specs.Fmt.{signed_decimal};
ghost use Rattle.elm_base.specs.Quoted.{escaped, quoted};

use elm_base::NoMemory;
use itoa::Buffer;

/// Appends a text between quotes, escaped.
pub fn push_quoted(quote: u8, text: &[u8], out: &mut Vec<u8>) -> Result<(), NoMemory>
    ensures { OnOk result (out.new.items ≡ out.old.items ++ quoted quote text.now) }
{
    out.push(quote)?;
    push_escaped_text(quote, text, out)?;
    out.push(quote)?;
    Ok(())
}

/// Appends a char between quotes, escaped.
pub fn push_char(code: char, out: &mut Vec<u8>) -> Result<(), NoMemory>
    ensures { OnOk result (out.new.items ≡ out.old.items ++ quoted 39 (encode_utf8 code)) }
{
    let mut buffer = [0u8; 4];
    push_quoted(b'\'', code.encode_utf8(&mut buffer).as_bytes(), out)
}

/// Appends a number in decimal.
pub fn push_number(number: i64, out: &mut Vec<u8>) -> Result<(), NoMemory>
    ensures { OnOk result (out.new.items ≡ out.old.items ++ signed_decimal number) }
{
    let mut buffer = Buffer::new();
    out.extend_from_slice(buffer.format(number).as_bytes())?;
    Ok(())
}

fn push_escaped_text(quote: u8, text: &[u8], out: &mut Vec<u8>) -> Result<(), NoMemory>
    ensures { OnOk result (out.new.items ≡ out.old.items ++ flat_map (escaped quote) text.now) }
{
    for byte in text {
        push_escaped(quote, *byte, out)?;
    }
    Ok(())
}

fn push_escaped(quote: u8, byte: u8, out: &mut Vec<u8>) -> Result<(), NoMemory>
    ensures { OnOk result (out.new.items ≡ out.old.items ++ escaped quote byte) }
{
    if byte == quote {
        out.push(b'\\')?;
        out.push(quote)?;
        return Ok(());
    }
    match byte {
        b'\\' => out.extend_from_slice(b"\\\\")?,
        b'\n' => out.extend_from_slice(b"\\n")?,
        b'\t' => out.extend_from_slice(b"\\t")?,
        b'\r' => out.extend_from_slice(b"\\r")?,
        _ => out.push(byte)?,
    }
    Ok(())
}
