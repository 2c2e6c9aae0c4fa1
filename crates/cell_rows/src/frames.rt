//! An Element in a frame.
ghost use Rattle.std.specs.Prelude.{◌≡◌, ◌≤◌, ℤ, pos, ◌-ℤ◌, Some, None, map, IfOk, OnOk, ◌++◌, [], ◌∷◌};
ghost use Rattle.std.specs.Str.{chars};
ghost use Rattle.elm_meaning.specs.Values.{Int};
ghost use Rattle.elm_meaning.specs.Layout.{container as container_native, edge as edge_of, cell_at, row_at, RowsHave};
ghost use Rattle.cell_rows.specs.Elements.{IsWhole, LaysOut, element, position as position_value, position_name};
ghost use Rattle.cell_rows.specs.Frames.{margin_at, inner_place, framed_row, frame_rows};

use crate::bytes::{chars_of, push_char};
use crate::types::{Cells, Position};
use elm_base::{Name, NoMemory};
use sqlite_items::Items;
use std::alloc::Global;

/// Where the left or top edge of the inner Element stands.
#[derive(Clone, Copy, Debug, PartialEq, Eq)]
pub enum Margin {
    /// So many places inside the frame.
    Inside(u32),
    /// One place more than so many outside of it.
    Outside(u32),
}

/// A frame so wide and so high, at most 1,000 either way, with an Element in it. What falls outside is dropped.
pub fn container(
    alloc: Global,
    width: u32,
    height: u32,
    position: Position,
    inner: &Cells,
) -> Result<Cells, NoMemory>
    requires wide { width ≤ 1000 }
    requires high { height ≤ 1000 }
    requires whole { IsWhole inner.now }
    ensures { IfOk result
        (LaysOut (container_native
        (Int (pos width) ∷ Int (pos height) ∷ position_value position ∷ element inner.now ∷ []))) }
{
    let left = edge(position, width, inner.width);
    let top = edge(position, height, inner.height);
    let rows = frame(alloc, (width, height), left, top, inner)?;
    Ok(Cells {
        width,
        height,
        rows,
    })
}

/// Where an edge stands, by the frame's measure and the inner Element's.
fn edge(position: Position, outer: u32, inner: u32) -> Margin
    ensures { edge_of (position_name position) outer inner ≡ Some (margin_at result) }
{
    match position {
        Position::TopLeft => Margin::Inside(0),
        Position::Middle if inner <= outer => Margin::Inside((outer - inner) / 2),
        Position::Middle => Margin::Outside((inner - outer - 1) / 2),
        Position::BottomRight if inner <= outer => Margin::Inside(outer - inner),
        Position::BottomRight => Margin::Outside(inner - outer - 1),
    }
}

/// The inner place that stands at an outer one, where it isn't before the inner edge.
fn place(outer: u32, margin: Margin) -> Option<usize>
    ensures { result ≡ inner_place (pos outer -ℤ margin_at margin) }
{
    match margin {
        Margin::Inside(by) if outer < by => None,
        Margin::Inside(by) => Some((outer - by) as usize),
        Margin::Outside(by) => Some(outer as usize + by as usize + 1),
    }
}

/// The rows of a frame.
fn frame(
    alloc: Global,
    size: (u32, u32),
    left: Margin,
    top: Margin,
    inner: &Cells,
) -> Result<Items<Name>, NoMemory>
    requires { IsWhole inner.now }
    ensures { IfOk result
        (λ rows. rows ≡ frame_rows size.0 size.1 (margin_at left) (margin_at top) (map chars inner.now.rows)) }
{
    let (width, height) = size;
    let mut rows = Items::new(alloc);
    for y in 0..height {
        let codes = codes_at(alloc, place(y, top), inner)?;
        rows.push(framed(alloc, codes.as_slice(), width, left)?)?;
    }
    Ok(rows)
}

/// The chars of the row at a place; none where there is no row.
fn codes_at(alloc: Global, at: Option<usize>, inner: &Cells) -> Result<Vec<char>, NoMemory>
    requires { IsWhole inner.now }
    ensures { (place : ℤ) → at ≡ inner_place place → IfOk result
        (λ codes. codes.items ≡ row_at place (map chars inner.now.rows)) }
{
    let Some(at) = at else {
        return Ok(Vec::new(alloc));
    };
    match inner.rows.get(at) {
        Some(row) => chars_of(alloc, row.bytes()),
        None => Ok(Vec::new(alloc)),
    }
}

/// A frame's row round these chars.
fn framed(alloc: Global, codes: &[char], width: u32, left: Margin) -> Result<Name, NoMemory>
    ensures { IfOk result (λ row. row ≡ framed_row width (margin_at left) codes.now) }
{
    let mut row = Vec::new(alloc);
    for x in 0..width {
        push_char(cell(place(x, left), codes), &mut row)?;
    }
    Ok(Name::from_vec(row))
}

/// The char at a place of a row; a space where there is none.
fn cell(at: Option<usize>, codes: &[char]) -> char
    ensures { (place : ℤ) → at ≡ inner_place place → result ≡ cell_at place codes.now }
{
    match at {
        Some(at) => codes.get(at).copied().unwrap_or(' '),
        None => ' ',
    }
}
