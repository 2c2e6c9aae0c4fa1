//! Texts as rows.
ghost use Rattle.std.specs.Prelude.{◌≡◌, ◌≤◌, length, IfOk, [], ◌∷◌};
ghost use Rattle.elm_meaning.specs.Values.{Text};
ghost use Rattle.elm_meaning.specs.Texts.{text_chars};
ghost use Rattle.elm_meaning.specs.Layout.{text as text_native, text_grid, lines_of, widest, shown as shown_code};
ghost use Rattle.cell_rows.specs.Elements.{IsSizeOf, IsWithin, LaysOut};
ghost use Rattle.cell_rows.specs.Lines.{widest_from, rows_from, filled as filled_row};

use crate::bytes::{chars_of, padded, push_char};
use crate::types::{Cells, Size};
use elm_base::{Name, NoMemory};
use sqlite_items::Items;
use std::alloc::Global;

/// How large a text is as an Element: its lines, each as wide as the widest. Bytes that aren't UTF-8 are read as
/// the empty text.
pub fn text_size(alloc: Global, text: &[u8]) -> Result<Size, NoMemory>
    ensures { IfOk result (IsSizeOf (text_grid (text_chars text.now))) }
{
    let codes = chars_of(alloc, text)?;
    Ok(size_of_lines(codes.as_slice()))
}

/// A text's lines as rows, each filled with spaces to the widest. A control char is shown as a question mark.
/// Bytes that aren't UTF-8 are read as the empty text.
pub fn text_cells(alloc: Global, text: &[u8]) -> Result<Cells, NoMemory>
    requires within { IsWithin (text_grid (text_chars text.now)) }
    ensures { IfOk result (LaysOut (text_native (Text text.now ∷ []))) }
{
    let codes = chars_of(alloc, text)?;
    let size = size_of_lines(codes.as_slice());
    let rows = rows_of_lines(alloc, codes.as_slice(), size.width as usize)?;
    Ok(Cells {
        width: size.width as u32,
        height: size.height as u32,
        rows,
    })
}

fn size_of_lines(codes: &[char]) -> Size
    ensures width { result.width ≡ widest (lines_of codes.now) }
    ensures height { result.height ≡ length (lines_of codes.now) }
{
    let mut width = 0u64;
    let mut height = 1u64;
    let mut here = 0u64;
    for code in codes {
        if *code == '\n' {
            height += 1;
            here = 0;
        } else {
            here += 1;
            width = width.max(here);
        }
    }
    Size { width, height }
}

fn rows_of_lines(alloc: Global, codes: &[char], width: usize) -> Result<Items<Name>, NoMemory>
    ensures { IfOk result (λ rows. rows ≡ rows_from width 0 [] codes.now) }
{
    let mut rows = Items::new(alloc);
    let mut row = Vec::new(alloc);
    let mut count = 0usize;
    for code in codes {
        if *code == '\n' {
            rows.push(filled(alloc, row.as_slice(), count, width)?)?;
            row.clear();
            count = 0;
        } else {
            push_char(shown(*code), &mut row)?;
            count += 1;
        }
    }
    let last = filled(alloc, row.as_slice(), count, width)?;
    rows.push(last)?;
    Ok(rows)
}

/// A row that has so many chars, filled with spaces to this width.
fn filled(alloc: Global, row: &[u8], count: usize, width: usize) -> Result<Name, NoMemory>
    ensures { IfOk result (λ name. name ≡ filled_row width count row.now) }
{
    padded(alloc, row, width.saturating_sub(count))
}

/// The char that stands in the cell.
fn shown(code: char) -> char
    ensures { result ≡ shown_code code }
{
    if code < ' ' || code == '\u{7f}' {
        '?'
    } else {
        code
    }
}
