//! The names of inputs, files and projects.
ghost use Rattle.std.specs.Prelude.{◌≡◌, ◌||◌, ◌==◌};
ghost use Rattle.std.specs.List.{list_all};
ghost use Rattle.elm_base.specs.Letters.{is_name_byte};
ghost use Rattle.script_lines.specs.Names as spec;

use crate::bytes::cut;

/// Whether these bytes name an input: 1 to 255 letters, digits, underscores, apostrophes and points.
pub fn is_input_name(name: &[u8]) -> bool
    ensures { result ≡ spec.is_input_name name.now }
{
    !name.is_empty() && name.len() <= 255 && are_input_bytes(name)
}

fn are_input_bytes(name: &[u8]) -> bool
    ensures { result ≡ list_all (λ byte. is_name_byte byte || byte == 46) name.now }
{
    name.iter().all(|byte| is_input_byte(*byte))
}

fn is_input_byte(byte: u8) -> bool
    ensures { result ≡ (is_name_byte byte || byte == 46) }
{
    byte.is_ascii_alphanumeric() || byte == b'_' || byte == b'\'' || byte == b'.'
}

/// Whether these bytes name a file or a folder, relative to the folder in which the program runs: at most 255 bytes,
/// parts with single slashes between them, none of which leads up.
pub fn is_file_name(name: &[u8]) -> bool
    ensures { result ≡ spec.is_file_name name.now }
{
    name.len() <= 255 && are_segments(name)
}

fn are_segments(name: &[u8]) -> bool
    ensures { result ≡ list_all spec.is_segment (spec.segments name.now) }
{
    match cut(name, b'/') {
        None => is_segment(name),
        Some((first, rest)) => is_segment(first) && are_segments(rest),
    }
}

/// A part of a name between slashes.
fn is_segment(segment: &[u8]) -> bool
    ensures { result ≡ spec.is_segment segment.now }
{
    !segment.is_empty() && are_segment_bytes(segment) && segment[0] != b'-' && !is_dots(segment)
}

fn are_segment_bytes(segment: &[u8]) -> bool
    ensures { result ≡ list_all spec.is_segment_byte segment.now }
{
    segment.iter().all(|byte| is_segment_byte(*byte))
}

fn is_segment_byte(byte: u8) -> bool
    ensures { result ≡ spec.is_segment_byte byte }
{
    byte.is_ascii_alphanumeric() || byte == b'_' || byte == b'-' || byte == b'.'
}

fn is_dots(segment: &[u8]) -> bool
    ensures { result ≡ spec.is_dots segment.now }
{
    segment == b".".as_slice() || segment == b"..".as_slice()
}
