//! Items one after the other.
ghost use Rattle.std.specs.Prelude.{◌≡◌, ◌≤◌, ◌<◌, ◌++◌, ℕ, List, length, slice_get, Some, IfOk, OnOk, [], ◌∷◌};
ghost use Rattle.elm_meaning.specs.Layout.{flow as flow_native};
ghost use Rattle.cell_rows.specs.declared.types.Cells.{Cells};
ghost use Rattle.cell_rows.specs.declared.flows.Measure.TheVariants.{Width, Height};
ghost use Rattle.cell_rows.specs.Elements.{AreWhole, IsSizeOf, IsWithin, LaysOut, direction as direction_value, elements, flow_grid};
ghost use Rattle.cell_rows.specs.Flows.{ordered, measure_of, total as total_of, most as most_of, rows_within, rows_above, row_of, row_beside, rows_beside};

use crate::bytes::{padded, push_spaces};
use crate::types::{Cells, Direction, Size};
use elm_base::{Name, NoMemory};
use sqlite_items::Items;
use std::alloc::Global;

/// One of the two measures of an Element.
#[derive(Clone, Copy, Debug, PartialEq, Eq)]
pub enum Measure {
    Width,
    Height,
}

/// The size of a flow with one more item, which is so wide and so high.
pub fn grown(direction: Direction, size: Size, width: u32, height: u32) -> Size
    requires wide { size.width ≤ 18446744069414584320 }
    requires high { size.height ≤ 18446744069414584320 }
    ensures { (items : List Cells) (rows : List (List ℕ)) → IsSizeOf (flow_grid direction items) size →
        IsSizeOf (flow_grid direction
        (items ++ record { width = width; height = height; rows = rows } ∷ [])) result }
{
    let (wide, high) = (u64::from(width), u64::from(height));
    match direction {
        Direction::Up | Direction::Down => Size {
            width: size.width.max(wide),
            height: size.height + high,
        },
        Direction::Left | Direction::Right => Size {
            width: size.width + wide,
            height: size.height.max(high),
        },
    }
}

/// Items under each other or side by side. Under each other they are left-aligned and filled with spaces to the
/// widest; side by side top-aligned and filled to the highest.
pub fn flow(alloc: Global, direction: Direction, items: &[Cells]) -> Result<Cells, NoMemory>
    requires whole { AreWhole items.now }
    requires within { IsWithin (flow_grid direction items.now) }
    ensures { IfOk result
        (LaysOut (flow_native (direction_value direction ∷ elements items.now ∷ []))) }
{
    match direction {
        Direction::Down => above(alloc, items, false),
        Direction::Up => above(alloc, items, true),
        Direction::Right => beside(alloc, items, false),
        Direction::Left => beside(alloc, items, true),
    }
}

/// Items under each other, from the last on where they go backwards.
fn above(alloc: Global, items: &[Cells], backwards: bool) -> Result<Cells, NoMemory>
    requires high { total_of Height items.now ≤ 1000 }
    ensures width { IfOk result (λ cells. cells.width ≡ most_of Width items.now) }
    ensures height { IfOk result (λ cells. cells.height ≡ total_of Height items.now) }
    ensures rows { IfOk result
        (λ cells. cells.rows ≡ rows_above (most_of Width items.now) (ordered backwards items.now)) }
{
    let width = most(items, Measure::Width);
    let height = total(items, Measure::Height) as u32;
    let rows = pile(alloc, items, backwards, width)?;
    Ok(Cells {
        width,
        height,
        rows,
    })
}

fn pile(
    alloc: Global,
    items: &[Cells],
    backwards: bool,
    width: u32,
) -> Result<Items<Name>, NoMemory>
    ensures { IfOk result (λ rows. rows ≡ rows_above width (ordered backwards items.now)) }
{
    let mut rows = Items::new(alloc);
    for at in 0..items.len() {
        push_rows(alloc, item_at(items, backwards, at), width, &mut rows)?;
    }
    Ok(rows)
}

/// Appends the rows of an item, each filled to this width.
fn push_rows(
    alloc: Global,
    item: &Cells,
    width: u32,
    rows: &mut Items<Name>,
) -> Result<(), NoMemory>
    ensures { OnOk result (rows.new ≡ rows.old ++ rows_within width item.now) }
{
    let spaces = width.saturating_sub(item.width) as usize;
    for row in item.rows.as_slice() {
        rows.push(padded(alloc, row.bytes(), spaces)?)?;
    }
    Ok(())
}

/// Items side by side, from the last on where they go backwards.
fn beside(alloc: Global, items: &[Cells], backwards: bool) -> Result<Cells, NoMemory>
    requires whole { AreWhole items.now }
    requires wide { total_of Width items.now ≤ 1000 }
    ensures width { IfOk result (λ cells. cells.width ≡ total_of Width items.now) }
    ensures height { IfOk result (λ cells. cells.height ≡ most_of Height items.now) }
    ensures rows { IfOk result
        (λ cells. cells.rows ≡ rows_beside (most_of Height items.now) (ordered backwards items.now)) }
{
    let width = total(items, Measure::Width) as u32;
    let height = most(items, Measure::Height);
    let mut rows = Items::new(alloc);
    for y in 0..height {
        rows.push(joined_row(alloc, items, backwards, y)?)?;
    }
    Ok(Cells {
        width,
        height,
        rows,
    })
}

/// The rows of all items with this number.
fn joined_row(alloc: Global, items: &[Cells], backwards: bool, y: u32) -> Result<Name, NoMemory>
    ensures { IfOk result (λ row. row ≡ row_beside (ordered backwards items.now) y) }
{
    let mut row = Vec::new(alloc);
    for at in 0..items.len() {
        push_row(item_at(items, backwards, at), y, &mut row)?;
    }
    Ok(Name::from_vec(row))
}

/// Appends an item's row with this number, or spaces where the item has none.
fn push_row(item: &Cells, y: u32, out: &mut Vec<u8>) -> Result<(), NoMemory>
    ensures { OnOk result (out.new.items ≡ out.old.items ++ row_of y item.now) }
{
    if y >= item.height {
        return push_spaces(item.width as usize, out);
    }
    match item.rows.get(y as usize) {
        Some(row) => out.extend_from_slice(row.bytes())?,
        None => {}
    }
    Ok(())
}

fn item_at(items: &[Cells], backwards: bool, at: usize) -> &Cells
    requires { at < length items.now }
    ensures { slice_get (ordered backwards items.now) at ≡ Some result.now }
{
    if backwards {
        &items[items.len() - 1 - at]
    } else {
        &items[at]
    }
}

fn measured(item: &Cells, measure: Measure) -> u32
    ensures { result ≡ measure_of measure item.now }
{
    match measure {
        Measure::Width => item.width,
        Measure::Height => item.height,
    }
}

/// The sum of the items' widths or heights.
fn total(items: &[Cells], measure: Measure) -> u64
    requires { total_of measure items.now ≤ 1000 }
    ensures { result ≡ total_of measure items.now }
{
    let mut sum = 0u64;
    for item in items {
        sum += u64::from(measured(item, measure));
    }
    sum
}

/// The greatest of the items' widths or heights; 0 without items.
fn most(items: &[Cells], measure: Measure) -> u32
    ensures { result ≡ most_of measure items.now }
{
    let mut greatest = 0u32;
    for item in items {
        greatest = greatest.max(measured(item, measure));
    }
    greatest
}
