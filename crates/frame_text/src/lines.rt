//! The words that lines are made of. Each call appends to `out`, and after want of memory `out` holds a part.
ghost use Rattle.std.specs.Prelude.{◌≡◌, [], ◌∷◌, ◌++◌, decimal, OnOk};
ghost use Rattle.std.specs.List.{flat_map};
ghost use Rattle.elm_base.specs.Quoted.{escaped, quoted};
ghost use Rattle.frame_text.specs.Lines.{spaced};

use elm_base::NoMemory;
use itoa::Buffer;

/// Appends a text.
pub fn push_text(text: &[u8], out: &mut Vec<u8>) -> Result<(), NoMemory>
    ensures { OnOk result (out.new.items ≡ out.old.items ++ text.now) }
{
    out.extend_from_slice(text)?;
    Ok(())
}

/// Appends a word behind another one.
pub fn push_word(word: &[u8], out: &mut Vec<u8>) -> Result<(), NoMemory>
    ensures { OnOk result (out.new.items ≡ out.old.items ++ spaced word.now) }
{
    out.push(b' ')?;
    out.extend_from_slice(word)?;
    Ok(())
}

/// Appends a number as a word behind another one.
pub fn push_number(number: u32, out: &mut Vec<u8>) -> Result<(), NoMemory>
    ensures { OnOk result (out.new.items ≡ out.old.items ++ spaced (decimal number)) }
{
    let mut buffer = Buffer::new();
    push_word(buffer.format(number).as_bytes(), out)
}

/// Appends the literal of a text as a word behind another one.
pub fn push_quoted(text: &[u8], out: &mut Vec<u8>) -> Result<(), NoMemory>
    ensures { OnOk result (out.new.items ≡ out.old.items ++ spaced (quoted 34 text.now)) }
{
    out.extend_from_slice(b" \"")?;
    push_escaped_text(text, out)?;
    out.push(b'"')?;
    Ok(())
}

fn push_escaped_text(text: &[u8], out: &mut Vec<u8>) -> Result<(), NoMemory>
    ensures { OnOk result (out.new.items ≡ out.old.items ++ flat_map (escaped 34) text.now) }
{
    for byte in text {
        push_escaped(*byte, out)?;
    }
    Ok(())
}

fn push_escaped(byte: u8, out: &mut Vec<u8>) -> Result<(), NoMemory>
    ensures { OnOk result (out.new.items ≡ out.old.items ++ escaped 34 byte) }
{
    match byte {
        b'"' => out.extend_from_slice(b"\\\"")?,
        b'\\' => out.extend_from_slice(b"\\\\")?,
        b'\n' => out.extend_from_slice(b"\\n")?,
        b'\t' => out.extend_from_slice(b"\\t")?,
        b'\r' => out.extend_from_slice(b"\\r")?,
        _ => out.push(byte)?,
    }
    Ok(())
}

/// Ends a line.
pub fn end_line(out: &mut Vec<u8>) -> Result<(), NoMemory>
    ensures { OnOk result (out.new.items ≡ out.old.items ++ 10 ∷ []) }
{
    out.push(b'\n')?;
    Ok(())
}
